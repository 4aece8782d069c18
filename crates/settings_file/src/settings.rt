//! The settings.
ghost use Rattle.std.specs.Prelude.{◌≡◌, length, IfOk};
ghost use Rattle.std.specs.Option.{option_copied};
ghost use Rattle.toml.specs.View.{table_view};
ghost use Rattle.market_types.specs.Ranges.{IsSpec};
ghost use Rattle.tester_settings.specs.Ranges.{AreSettings};
ghost use Rattle.settings_file.specs.Faults.{IsAnswer};
ghost use Rattle.settings_file.specs.Ranges.{FundsAreInRange, BoundsAreInRange};
ghost use Rattle.settings_file.specs.Settings.{run_in, funds_in, bounds_in, of_parts, settings_in, settings_of, Answers};

use crate::amounts::money_key;
use crate::entries::{inputs_in, optimise_in};
use crate::fault::{SettingsFault, key_fault};
use crate::judging::judged;
use crate::keys::{
    Expert, account_key, currency_key, expert_key, mode_key, period_key, value_at, whole_key,
};
use crate::symbols::symbols_in;
use crate::unknown::first_unknown;
use fx8::{ItemList, Money, OutOfMemory, Text8};
use market_types::{Mode, Period, Specs};
use std::alloc::Global;
use tester_settings::{Account, Assignments, InputRanges, Settings};
use toml::Table;

/// What a settings file says.
#[derive(Debug, Drop)]
pub struct SettingsFile {
    /// The settings of the test; `study` is false.
    pub settings: Settings,
    /// The name of the expert's source.
    pub expert: Option<Text8>,
    /// The values of inputs.
    pub inputs: Assignments,
    /// The ranges of inputs.
    pub optimise: InputRanges,
}

/// What is run, over which quotes.
#[derive(Debug, Drop)]
struct Run {
    expert: Option<Text8>,
    mode: Mode,
    period: Period,
    account: Account,
}

/// The account's money.
#[derive(Debug, Drop)]
struct Funds {
    deposit: i128,
    currency: Text8,
    leverage: u32,
    stop_out: u32,
}

/// The bound of a pass, and what its random numbers begin from.
#[derive(Clone, Copy, Debug)]
struct Bounds {
    steps: u32,
    rand_start: u32,
}

fn owned(alloc: Global, text: Option<&str>) -> Result<Option<Text8>, OutOfMemory>
    ensures { IfOk result (λ t. t ≡ option_copied text.entry) }
{
    match text {
        Some(text) => {
            let text = Text8::from_slice(alloc, text.as_bytes())?;
            Ok(Some(text))
        }
        None => Ok(None),
    }
}

#[tactic(auto, unfolding(crate::specs::Settings::run_in))]
fn run_in(alloc: Global, need: Expert, document: &Table) -> Result<Run, SettingsFault>
    ensures { IsAnswer (run_in need (table_view document.now)) result }
{
    let expert = match expert_key(need, value_at(document, "expert")) {
        Ok(expert) => expert,
        Err(fault) => return Err(key_fault(alloc, fault, b"", "expert")),
    };
    let mode = match mode_key(value_at(document, "mode")) {
        Ok(mode) => mode,
        Err(fault) => return Err(key_fault(alloc, fault, b"", "mode")),
    };
    let period = match period_key(value_at(document, "period")) {
        Ok(period) => period,
        Err(fault) => return Err(key_fault(alloc, fault, b"", "period")),
    };
    let account = match account_key(value_at(document, "account")) {
        Ok(account) => account,
        Err(fault) => return Err(key_fault(alloc, fault, b"", "account")),
    };
    let expert = owned(alloc, expert)?;
    Ok(Run {
        expert,
        mode,
        period,
        account,
    })
}

#[tactic(auto, unfolding(crate::specs::Settings::funds_in))]
fn funds_in(alloc: Global, document: &Table) -> Result<Funds, SettingsFault>
    ensures value { IsAnswer (funds_in (table_view document.now)) result }
    ensures range { IfOk result FundsAreInRange }
{
    let deposit = match money_key(1_000_000, 1, 1_000_000_000, value_at(document, "deposit")) {
        Ok(deposit) => deposit,
        Err(fault) => return Err(key_fault(alloc, fault, b"", "deposit")),
    };
    let currency = match currency_key(value_at(document, "currency")) {
        Ok(currency) => currency,
        Err(fault) => return Err(key_fault(alloc, fault, b"", "currency")),
    };
    let leverage = match whole_key(100, 1, 10_000, value_at(document, "leverage")) {
        Ok(leverage) => leverage,
        Err(fault) => return Err(key_fault(alloc, fault, b"", "leverage")),
    };
    let stop_out = match whole_key(50, 0, 100, value_at(document, "stop_out")) {
        Ok(stop_out) => stop_out,
        Err(fault) => return Err(key_fault(alloc, fault, b"", "stop_out")),
    };
    let currency = Text8::from_slice(alloc, currency.as_bytes())?;
    Ok(Funds {
        deposit,
        currency,
        leverage,
        stop_out,
    })
}

#[tactic(auto, unfolding(crate::specs::Settings::bounds_in))]
fn bounds_in(alloc: Global, document: &Table) -> Result<Bounds, SettingsFault>
    ensures value { IsAnswer (bounds_in (table_view document.now)) result }
    ensures range { IfOk result BoundsAreInRange }
{
    let steps = match whole_key(50_000_000, 1, 1_000_000_000, value_at(document, "steps")) {
        Ok(steps) => steps,
        Err(fault) => return Err(key_fault(alloc, fault, b"", "steps")),
    };
    let rand_start = match whole_key(1, 0, 4_294_967_295, value_at(document, "rand_start")) {
        Ok(rand_start) => rand_start,
        Err(fault) => return Err(key_fault(alloc, fault, b"", "rand_start")),
    };
    Ok(Bounds { steps, rand_start })
}

fn of_parts(
    run: Run,
    funds: Funds,
    bounds: Bounds,
    inputs: Assignments,
    optimise: InputRanges,
    symbols: Specs,
) -> SettingsFile
    ensures { result ≡ of_parts run funds bounds inputs optimise symbols }
{
    let settings = Settings {
        mode: run.mode,
        period: run.period,
        account: run.account,
        deposit: Money::of_cents(funds.deposit),
        currency: funds.currency,
        leverage: funds.leverage,
        stop_out: funds.stop_out,
        steps: u64::from(bounds.steps),
        rand_start: bounds.rand_start,
        symbols,
        study: false,
    };
    SettingsFile {
        settings,
        expert: run.expert,
        inputs,
        optimise,
    }
}

/// The settings of a document without unknown keys.
#[tactic(auto, using(crate::proofs::Parts::settings_in_range), unfolding(crate::specs::Settings::settings_in))]
fn settings_in(alloc: Global, need: Expert, document: &Table) -> Result<SettingsFile, SettingsFault>
    ensures value { IsAnswer (settings_in need (table_view document.now)) result }
    ensures range { IfOk result (λ file. AreSettings file.settings) }
    ensures one { IfOk result (λ file. length file.settings.symbols ≡ 1) }
{
    let run = match run_in(alloc, need, document) {
        Ok(run) => run,
        Err(fault) => return Err(fault),
    };
    let funds = match funds_in(alloc, document) {
        Ok(funds) => funds,
        Err(fault) => return Err(fault),
    };
    let bounds = match bounds_in(alloc, document) {
        Ok(bounds) => bounds,
        Err(fault) => return Err(fault),
    };
    let inputs = match inputs_in(alloc, document) {
        Ok(inputs) => inputs,
        Err(fault) => return Err(fault),
    };
    let optimise = match optimise_in(alloc, document) {
        Ok(optimise) => optimise,
        Err(fault) => return Err(fault),
    };
    let found = match symbols_in(alloc, document) {
        Ok(found) => found,
        Err(fault) => return Err(fault),
    };
    let symbols = match judged(alloc, found) {
        Ok(symbols) => symbols,
        Err(fault) => return Err(fault),
    };
    Ok(of_parts(run, funds, bounds, inputs, optimise, symbols))
}

/// The settings of a document.
#[tactic(auto, unfolding(crate::specs::Settings::settings_of))]
fn settings_of(alloc: Global, need: Expert, document: &Table) -> Result<SettingsFile, SettingsFault>
    ensures value { IsAnswer (settings_of need (table_view document.now)) result }
    ensures range { IfOk result (λ file. AreSettings file.settings) }
    ensures one { IfOk result (λ file. length file.settings.symbols ≡ 1) }
{
    match first_unknown(alloc, document)? {
        Some(key) => Err(SettingsFault::Rule { rule: 2, key }),
        None => settings_in(alloc, need, document),
    }
}

/// Reads a settings file (TOML): its settings, or the first rule that is broken with the key that breaks it.
///
/// Rule 1: the bytes are not TOML. 2: a key is unknown; the first of these by the bytes of its full name is
/// told. 3: a key is missing, 4: of another kind, 5: out of range or form, 6: an unknown word; the first such
/// key in the order of the table of keys. 7: the number of symbols is not 1. 8: two symbols have one name. 9:
/// a volume minimum is above the maximum, or one of the two is no multiple of the step.
pub fn read_settings(
    alloc: Global,
    need: Expert,
    bytes: &[u8],
) -> Result<SettingsFile, SettingsFault>
    ensures exact { Answers need bytes.now result }
    ensures range { IfOk result (λ file. AreSettings file.settings) }
    ensures one { IfOk result (λ file. length file.settings.symbols ≡ 1) }
{
    match toml::table_from_slice(alloc, bytes) {
        Ok(document) => settings_of(alloc, need, &document),
        Err(error) => {
            if error.is_memory() {
                return Err(SettingsFault::OutOfMemory);
            }
            Err(SettingsFault::Rule {
                rule: 1,
                key: ItemList::new(alloc),
            })
        }
    }
}
