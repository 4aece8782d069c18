//! The symbols.
ghost use Rattle.std.specs.Prelude.{◌≡◌, All, IfOk};
ghost use Rattle.toml.specs.View.{view, table_view, items_view};
ghost use Rattle.market_types.specs.Ranges.{IsVolume};
ghost use Rattle.settings_file.specs.Symbols.{head_in, volume_at, volumes_in, costs_in, spec_of, symbol_in, symbol_of, symbols_from, symbols_in};
ghost use Rattle.settings_file.specs.Ranges.{HeadIsInRange, VolumesAreInRange, CostsAreInRange, SymbolIsInRange};
ghost use Rattle.settings_file.specs.Faults.{IsAnswer};

use crate::amounts::{money_key, volume_key};
use crate::fault::{SettingsFault, key_fault};
use crate::keys::{list_key, name_key, table_data, text_key, value_at, whole_if_any, whole_key};
use crate::names::{symbol_name, symbol_prefix};
use fx8::{Fix8, ItemList, Money, Text8};
use market_types::{Specs, SymbolSpec};
use std::alloc::Global;
use toml::{Table, Value};

/// What a symbol is called, where its prices are, and what they and a lot count in.
#[derive(Debug, Drop)]
struct Head {
    name: Text8,
    file: Text8,
    digits: u32,
    contract: u32,
}

/// Volumes, in units of 10^-8.
#[derive(Clone, Copy, Debug)]
struct Volumes {
    min: i64,
    max: i64,
    step: i64,
}

/// Distances in points, and amounts in hundredths.
#[derive(Clone, Copy, Debug)]
struct Costs {
    stops_level: u32,
    spread: Option<u32>,
    commission: i128,
    swap_long: i128,
    swap_short: i128,
    swap_day: u32,
}

#[tactic(auto, unfolding(crate::specs::Symbols::head_in))]
fn head_in(alloc: Global, prefix: &[u8], table: &Table) -> Result<Head, SettingsFault>
    ensures value { IsAnswer (head_in prefix.now (table_view table.now)) result }
    ensures range { IfOk result HeadIsInRange }
{
    let name = match name_key(value_at(table, "name")) {
        Ok(name) => name,
        Err(fault) => return Err(key_fault(alloc, fault, prefix, "name")),
    };
    let file = match text_key(value_at(table, "data")) {
        Ok(file) => file,
        Err(fault) => return Err(key_fault(alloc, fault, prefix, "data")),
    };
    let digits = match whole_key(5, 0, 8, value_at(table, "digits")) {
        Ok(digits) => digits,
        Err(fault) => return Err(key_fault(alloc, fault, prefix, "digits")),
    };
    let contract = match whole_key(100_000, 1, 1_000_000, value_at(table, "contract")) {
        Ok(contract) => contract,
        Err(fault) => return Err(key_fault(alloc, fault, prefix, "contract")),
    };
    let name = Text8::from_slice(alloc, name.as_bytes())?;
    let file = Text8::from_slice(alloc, file.as_bytes())?;
    Ok(Head {
        name,
        file,
        digits,
        contract,
    })
}

fn volume_at(
    alloc: Global,
    prefix: &[u8],
    key: &str,
    preset: i64,
    table: &Table,
) -> Result<i64, SettingsFault>
    requires { IsVolume preset }
    ensures value { IsAnswer (volume_at prefix.now key.now preset (table_view table.now)) result }
    ensures range { IfOk result IsVolume }
{
    match volume_key(preset, value_at(table, key)) {
        Ok(volume) => Ok(volume),
        Err(fault) => Err(key_fault(alloc, fault, prefix, key)),
    }
}

#[tactic(auto, unfolding(crate::specs::Symbols::volumes_in))]
fn volumes_in(alloc: Global, prefix: &[u8], table: &Table) -> Result<Volumes, SettingsFault>
    ensures value { IsAnswer (volumes_in prefix.now (table_view table.now)) result }
    ensures range { IfOk result VolumesAreInRange }
{
    let min = match volume_at(alloc, prefix, "volume_min", 1_000_000, table) {
        Ok(min) => min,
        Err(fault) => return Err(fault),
    };
    let max = match volume_at(alloc, prefix, "volume_max", 10_000_000_000, table) {
        Ok(max) => max,
        Err(fault) => return Err(fault),
    };
    let step = match volume_at(alloc, prefix, "volume_step", 1_000_000, table) {
        Ok(step) => step,
        Err(fault) => return Err(fault),
    };
    Ok(Volumes { min, max, step })
}

#[tactic(auto, unfolding(crate::specs::Symbols::costs_in))]
fn costs_in(alloc: Global, prefix: &[u8], table: &Table) -> Result<Costs, SettingsFault>
    ensures value { IsAnswer (costs_in prefix.now (table_view table.now)) result }
    ensures range { IfOk result CostsAreInRange }
{
    let stops_level = match whole_key(0, 0, 1_000_000, value_at(table, "stops_level")) {
        Ok(stops_level) => stops_level,
        Err(fault) => return Err(key_fault(alloc, fault, prefix, "stops_level")),
    };
    let spread = match whole_if_any(0, 1_000_000, value_at(table, "spread")) {
        Ok(spread) => spread,
        Err(fault) => return Err(key_fault(alloc, fault, prefix, "spread")),
    };
    let commission = match money_key(0, 0, 1_000_000, value_at(table, "commission")) {
        Ok(commission) => commission,
        Err(fault) => return Err(key_fault(alloc, fault, prefix, "commission")),
    };
    let swap_long = match money_key(0, -100_000_000, 1_000_000, value_at(table, "swap_long")) {
        Ok(swap_long) => swap_long,
        Err(fault) => return Err(key_fault(alloc, fault, prefix, "swap_long")),
    };
    let swap_short = match money_key(0, -100_000_000, 1_000_000, value_at(table, "swap_short")) {
        Ok(swap_short) => swap_short,
        Err(fault) => return Err(key_fault(alloc, fault, prefix, "swap_short")),
    };
    let swap_day = match whole_key(3, 0, 6, value_at(table, "swap_day")) {
        Ok(swap_day) => swap_day,
        Err(fault) => return Err(key_fault(alloc, fault, prefix, "swap_day")),
    };
    Ok(Costs {
        stops_level,
        spread,
        commission,
        swap_long,
        swap_short,
        swap_day,
    })
}

fn spec_of(head: Head, volumes: Volumes, costs: Costs) -> SymbolSpec
    requires head { HeadIsInRange head }
    requires volumes { VolumesAreInRange volumes }
    requires costs { CostsAreInRange costs }
    ensures { result ≡ spec_of head volumes costs }
{
    SymbolSpec {
        name: head.name,
        file: head.file,
        digits: head.digits as u8,
        contract: head.contract,
        volume_min: Fix8::of_units(volumes.min),
        volume_max: Fix8::of_units(volumes.max),
        volume_step: Fix8::of_units(volumes.step),
        stops_level: costs.stops_level,
        spread: costs.spread,
        commission: Money::of_cents(costs.commission),
        swap_long: Money::of_cents(costs.swap_long),
        swap_short: Money::of_cents(costs.swap_short),
        swap_day: costs.swap_day as u8,
    }
}

/// The symbol of a table, whose keys are named after a prefix.
#[tactic(auto, using(crate::proofs::Gathered::in_range))]
fn symbol_in(alloc: Global, prefix: &[u8], table: &Table) -> Result<SymbolSpec, SettingsFault>
    ensures value { IsAnswer (symbol_in prefix.now (table_view table.now)) result }
    ensures range { IfOk result SymbolIsInRange }
{
    let head = match head_in(alloc, prefix, table) {
        Ok(head) => head,
        Err(fault) => return Err(fault),
    };
    let volumes = match volumes_in(alloc, prefix, table) {
        Ok(volumes) => volumes,
        Err(fault) => return Err(fault),
    };
    let costs = match costs_in(alloc, prefix, table) {
        Ok(costs) => costs,
        Err(fault) => return Err(fault),
    };
    Ok(spec_of(head, volumes, costs))
}

/// The symbol at a place of the list.
fn symbol_of(alloc: Global, i: u64, value: &Value) -> Result<SymbolSpec, SettingsFault>
    ensures value { IsAnswer (symbol_of i (view value.now)) result }
    ensures range { IfOk result SymbolIsInRange }
{
    match table_data(value) {
        Ok(table) => {
            let prefix = symbol_prefix(alloc, i)?;
            symbol_in(alloc, prefix.as_slice(), table)
        }
        Err(fault) => {
            let key = symbol_name(alloc, i)?;
            let rule = fault.rule();
            Err(SettingsFault::Rule { rule, key })
        }
    }
}

/// The symbols of a list.
fn symbols(alloc: Global, values: &[Value]) -> Result<Specs, SettingsFault>
    ensures value { IsAnswer (symbols_from 0 (items_view values.now)) result }
    ensures range { IfOk result (All SymbolIsInRange) }
{
    let mut symbols = ItemList::new(alloc);
    for i in 0..values.len() {
        match symbol_of(alloc, i as u64, &values[i]) {
            Ok(symbol) => symbols.push(symbol)?,
            Err(fault) => return Err(fault),
        }
    }
    Ok(symbols)
}

/// What a document has under `symbol`.
pub(crate) fn symbols_in(alloc: Global, document: &Table) -> Result<Specs, SettingsFault>
    ensures value { IsAnswer (symbols_in (table_view document.now)) result }
    ensures range { IfOk result (All SymbolIsInRange) }
{
    match list_key(value_at(document, "symbol")) {
        Ok(values) => symbols(alloc, values),
        Err(fault) => Err(key_fault(alloc, fault, b"", "symbol")),
    }
}
