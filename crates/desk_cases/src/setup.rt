//! The account of a script.
ghost use Rattle.std.specs.Prelude.{◌≡◌, ◌≤◌, ◌∷◌, [], IfOk, IsTrue, All, length, ◌%◌, unsigned_abs, ◌≤ℤ◌, ◌<ℤ◌, pos};
ghost use Rattle.market_types.specs.Ranges.{IsSymbolName, IsVolume, IsSwap, IsSpec};
ghost use Rattle.account.specs.Ranges.{IsAccount};

use crate::stop::Stop;
use crate::words::Words;
use account::AccountSpec;
use fx8::{Fix8, Money, OutOfMemory, Text8};
use market_types::{Specs, SymbolSpec};
use std::alloc::Global;

/// The name of the symbol of all scripts.
#[tactic(auto, using(crate::proofs::NameLaws::eurusd_named))]
fn name(alloc: Global) -> Result<Text8, OutOfMemory>
    ensures { IfOk result IsSymbolName }
{
    Text8::from_slice(alloc, b"EURUSD")
}

/// The least and the greatest volume of an order, and what volumes are multiples of.
#[derive(Clone, Copy, Debug)]
struct Volumes {
    min: i64,
    max: i64,
    step: i64,
}

/// Whether a volume is so many steps.
fn is_multiple(volume: i64, step: i64) -> bool
    requires { pos 0 <ℤ step }
    ensures { IsTrue result → unsigned_abs volume % unsigned_abs step ≡ 0 }
{
    volume.unsigned_abs() % step.unsigned_abs() == 0
}

/// Takes a volume above 0 and at most 1000 lots.
fn volume(words: &mut Words<'_>) -> Result<i64, Stop>
    ensures { IfOk result IsVolume }
{
    words.number(1, 100_000_000_000)
}

/// Takes the three volumes.
fn three_volumes(words: &mut Words<'_>) -> Result<Volumes, Stop>
    ensures min { IfOk result (λ v. IsVolume v.min) }
    ensures max { IfOk result (λ v. IsVolume v.max) }
    ensures step { IfOk result (λ v. IsVolume v.step) }
    ensures order { IfOk result (λ v. v.min ≤ℤ v.max) }
    ensures min_steps { IfOk result (λ v. unsigned_abs v.min % unsigned_abs v.step ≡ 0) }
    ensures max_steps { IfOk result (λ v. unsigned_abs v.max % unsigned_abs v.step ≡ 0) }
{
    let min = volume(words)?;
    let max = volume(words)?;
    let step = volume(words)?;
    if max < min {
        return Err(Stop::BadLine);
    }
    if !is_multiple(min, step) {
        return Err(Stop::BadLine);
    }
    if !is_multiple(max, step) {
        return Err(Stop::BadLine);
    }
    Ok(Volumes { min, max, step })
}

/// Takes what a bought or sold lot earns or costs a night, in hundredths.
fn swap(words: &mut Words<'_>) -> Result<i64, Stop>
    ensures { IfOk result IsSwap }
{
    words.number(-100_000_000, 100_000_000)
}

/// Takes the numbers of the symbol.
fn symbol(alloc: Global, words: &mut Words<'_>) -> Result<SymbolSpec, Stop>
    ensures { IfOk result IsSpec }
{
    if words.word() != "EURUSD" {
        return Err(Stop::BadLine);
    }
    let digits = words.small(0, 8)?;
    let contract = words.small(1, 1_000_000)?;
    let volumes = three_volumes(words)?;
    let stops_level = words.small(0, 1_000_000)?;
    let commission = words.number(0, 100_000_000)?;
    let swap_long = swap(words)?;
    let swap_short = swap(words)?;
    let swap_day = words.small(0, 6)?;
    let name = name(alloc)?;
    Ok(SymbolSpec {
        name,
        file: Text8::new(alloc),
        digits: digits as u8,
        contract,
        volume_min: Fix8::of_units(volumes.min),
        volume_max: Fix8::of_units(volumes.max),
        volume_step: Fix8::of_units(volumes.step),
        stops_level,
        spread: None,
        commission: Money::of_cents(i128::from(commission)),
        swap_long: Money::of_cents(i128::from(swap_long)),
        swap_short: Money::of_cents(i128::from(swap_short)),
        swap_day: swap_day as u8,
    })
}

/// Takes the kind of an account: whether it is hedging.
fn kind(words: &mut Words<'_>) -> Result<bool, Stop> {
    match words.word() {
        "hedging" => Ok(true),
        "netting" => Ok(false),
        _ => Err(Stop::BadLine),
    }
}

/// A list of one symbol.
fn one(alloc: Global, symbol: SymbolSpec) -> Result<Specs, OutOfMemory>
    ensures { IfOk result (λ list. list ≡ symbol ∷ []) }
{
    let mut specs = Specs::new(alloc);
    specs.push(symbol)?;
    Ok(specs)
}

/// Takes the numbers of an account of these symbols.
fn account(words: &mut Words<'_>, specs: Specs) -> Result<AccountSpec, Stop>
    requires { All IsSpec specs }
    ensures account { IfOk result IsAccount }
    ensures specs { IfOk result (λ a. a.specs ≡ specs) }
{
    let hedging = kind(words)?;
    let deposit = words.number(1, 100_000_000_000)?;
    let leverage = words.small(1, 10_000)?;
    let stop_out = words.small(0, 100)?;
    Ok(AccountSpec {
        hedging,
        deposit: Money::of_cents(i128::from(deposit)),
        leverage,
        stop_out,
        specs,
    })
}

/// The account that the line of an account and that of its symbol tell.
pub fn account_of(alloc: Global, account_line: &str, symbol_line: &str) -> Result<AccountSpec, Stop>
    ensures account { IfOk result IsAccount }
    ensures one { IfOk result (λ a. length a.specs ≡ 1) }
{
    let mut words = Words::of(symbol_line);
    if words.word() != "symbol" {
        return Err(Stop::BadLine);
    }
    let symbol = symbol(alloc, &mut words)?;
    let specs = one(alloc, symbol)?;
    let mut words = Words::of(account_line);
    if words.word() != "account" {
        return Err(Stop::BadLine);
    }
    account(&mut words, specs)
}

/// An equal symbol.
fn copy_symbol(alloc: Global, symbol: &SymbolSpec) -> Result<SymbolSpec, OutOfMemory>
    ensures { IfOk result (λ copy. copy ≡ symbol.now) }
{
    let name = Text8::from_slice(alloc, symbol.name.as_slice())?;
    let file = Text8::from_slice(alloc, symbol.file.as_slice())?;
    Ok(symbol_with(symbol, name, file))
}

/// The symbol with another name and file.
fn symbol_with(symbol: &SymbolSpec, name: Text8, file: Text8) -> SymbolSpec
    ensures { result ≡ record symbol.now { name = name; file = file } }
{
    SymbolSpec {
        name,
        file,
        digits: symbol.digits,
        contract: symbol.contract,
        volume_min: symbol.volume_min,
        volume_max: symbol.volume_max,
        volume_step: symbol.volume_step,
        stops_level: symbol.stops_level,
        spread: symbol.spread,
        commission: symbol.commission,
        swap_long: symbol.swap_long,
        swap_short: symbol.swap_short,
        swap_day: symbol.swap_day,
    }
}

/// An equal list of one symbol.
pub fn copy_one(alloc: Global, specs: &Specs) -> Result<Specs, Stop>
    requires { length specs.now ≡ 1 }
    ensures { IfOk result (λ copy. copy ≡ specs.now) }
{
    match specs.as_slice() {
        [symbol] => {
            let copy = copy_symbol(alloc, symbol)?;
            Ok(one(alloc, copy)?)
        }
        _ => Err(Stop::BadLine),
    }
}
