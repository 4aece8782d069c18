//! The rules over all the symbols.
ghost use Rattle.std.specs.Prelude.{◌≡◌, ◌<ℤ◌, pos, [], ◌++◌, option_map, length, All, IfOk, IsTrue, None};
ghost use Rattle.market_types.specs.Ranges.{IsSpec};
ghost use Rattle.settings_file.specs.Symbols.{is_number_of_symbols, has_name, double_from, is_multiple, volumes_at_odds, odd_volumes_from, judged};
ghost use Rattle.settings_file.specs.Faults.{IsAnswer, Tells};
ghost use Rattle.settings_file.specs.Names.{symbol_prefix};
ghost use Rattle.settings_file.specs.Ranges.{SymbolIsInRange};

use crate::fault::{SettingsFault, broken};
use crate::names::symbol_prefix;
use fx8::{Fix8, ItemList};
use market_types::{Specs, SymbolSpec};
use std::alloc::Global;

fn is_number_of_symbols(n: u64) -> bool
    ensures value { result ≡ is_number_of_symbols n }
    ensures one { IsTrue result → n ≡ 1 }
{
    1 <= n && n <= 1
}

/// Whether one of the symbols has this name.
#[tactic(auto, unfolding(crate::specs::Symbols::has_name))]
fn has_name(name: &[u8], symbols: &[SymbolSpec]) -> bool
    ensures { result ≡ has_name name.now symbols.now }
{
    let mut rest = symbols;
    while let Some((symbol, more)) = rest.split_first() {
        if symbol.name.as_slice() == name {
            return true;
        }
        rest = more;
    }
    false
}

/// The place of the first symbol that has the name of an earlier one.
fn first_double(symbols: &[SymbolSpec]) -> Option<u64>
    ensures { result ≡ double_from 0 [] symbols.now }
{
    for i in 0..symbols.len() {
        let symbol = &symbols[i];
        let earlier = &symbols[..i];
        if has_name(symbol.name.as_slice(), earlier) {
            return Some(i as u64);
        }
    }
    None
}

/// Whether a volume is so many steps.
fn is_multiple(volume: Fix8, step: Fix8) -> bool
    requires { pos 0 <ℤ step }
    ensures { result ≡ is_multiple volume step }
{
    volume.units().unsigned_abs() % step.units().unsigned_abs() == 0
}

/// The key of a symbol whose volumes are at odds.
fn volumes_at_odds(symbol: &SymbolSpec) -> Option<&'static str>
    requires { pos 0 <ℤ symbol.now.volume_step }
    ensures { option_map (λ s. s.now) result ≡ volumes_at_odds symbol.now }
{
    let above = symbol.volume_min.units() > symbol.volume_max.units();
    if above || !is_multiple(symbol.volume_min, symbol.volume_step) {
        return Some("volume_min");
    }
    if !is_multiple(symbol.volume_max, symbol.volume_step) {
        return Some("volume_max");
    }
    None
}

/// The first symbol whose volumes are at odds, with the key.
fn first_odd(symbols: &[SymbolSpec]) -> Option<(u64, &'static str)>
    requires { All SymbolIsInRange symbols.now }
    ensures { option_map (λ p. (p.0, p.1.now)) result ≡ odd_volumes_from 0 symbols.now }
{
    for i in 0..symbols.len() {
        let symbol = &symbols[i];
        if let Some(key) = volumes_at_odds(symbol) {
            return Some((i as u64, key));
        }
    }
    None
}

/// The fault of a symbol's key.
fn symbol_fault(alloc: Global, rule: u8, i: u64, key: &str) -> SettingsFault
    ensures { Tells rule (symbol_prefix i ++ key.now) result }
{
    match symbol_prefix(alloc, i) {
        Ok(prefix) => broken(alloc, rule, prefix.as_slice(), key),
        Err(_) => SettingsFault::OutOfMemory,
    }
}

/// The symbols, where they break no rule over all of them.
#[tactic(auto, using(crate::proofs::Judged::all_specs))]
pub(crate) fn judged(alloc: Global, symbols: Specs) -> Result<Specs, SettingsFault>
    requires { All SymbolIsInRange symbols }
    ensures value { IsAnswer (judged symbols) result }
    ensures range { IfOk result (All IsSpec) }
    ensures one { IfOk result (λ specs. length specs ≡ 1) }
{
    if !is_number_of_symbols(symbols.len()) {
        let key = ItemList::new(alloc);
        return Err(SettingsFault::Rule { rule: 7, key });
    }
    if let Some(i) = first_double(symbols.as_slice()) {
        return Err(symbol_fault(alloc, 8, i, "name"));
    }
    match first_odd(symbols.as_slice()) {
        Some((i, key)) => Err(symbol_fault(alloc, 9, i, key)),
        None => Ok(symbols),
    }
}
