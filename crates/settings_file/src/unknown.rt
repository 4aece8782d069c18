//! Keys that are unknown.
ghost use Rattle.std.specs.Prelude.{◌≡◌, ◌++◌, OnOk, IfOk, option_map, []};
ghost use Rattle.std.specs.Option.{option_copied};
ghost use Rattle.toml.specs.View.{view, table_view, items_view};
ghost use Rattle.settings_file.specs.Unknown.{is_top, is_of_symbol, is_of_range, is_known, unknown_in, unknown_of, unknown_in_symbols, unknown_under_symbol, unknown_in_ranges, unknown_under_optimise, unknown_names, lesser, least};

use crate::keys::value_at;
use crate::names::{range_prefix, symbol_prefix};
use fx8::{ItemList, OutOfMemory, Text8};
use std::alloc::Global;
use toml::{Table, Value};

/// Where a table of keys stands.
#[derive(Clone, Copy, Debug, PartialEq, Eq)]
pub(crate) enum Level {
    Top,
    OfSymbol,
    OfRange,
}

fn is_top(key: &str) -> bool
    ensures { result ≡ is_top key.now }
{
    (key == "expert" || (key == "mode" || (key == "period" || key == "account")))
        || ((key == "deposit" || (key == "currency" || (key == "leverage" || key == "stop_out")))
            || (key == "steps"
                || (key == "rand_start"
                    || (key == "inputs" || (key == "optimise" || key == "symbol")))))
}

fn is_of_symbol(key: &str) -> bool
    ensures { result ≡ is_of_symbol key.now }
{
    (key == "name" || (key == "data" || (key == "digits" || key == "contract")))
        || ((key == "volume_min"
            || (key == "volume_max" || (key == "volume_step" || key == "stops_level")))
            || (key == "spread"
                || (key == "commission"
                    || (key == "swap_long" || (key == "swap_short" || key == "swap_day")))))
}

fn is_of_range(key: &str) -> bool
    ensures { result ≡ is_of_range key.now }
{
    key == "start" || (key == "step" || key == "stop")
}

/// Whether a key is known where it stands.
fn is_known(level: Level, key: &str) -> bool
    ensures { result ≡ is_known level key.now }
{
    match level {
        Level::Top => is_top(key),
        Level::OfSymbol => is_of_symbol(key),
        Level::OfRange => is_of_range(key),
    }
}

/// Adds the unknown keys of a table, each after what its full name begins with.
fn push_unknown(
    alloc: Global,
    names: &mut ItemList<Text8>,
    level: Level,
    prefix: &[u8],
    table: &Table,
) -> Result<(), OutOfMemory>
    ensures { OnOk result (names.new ≡ names.old ++ unknown_in level prefix.now (table_view table.now)) }
{
    for (key, _value) in table.iter() {
        if !is_known(level, key.as_str()) {
            let mut name = Text8::from_slice(alloc, prefix)?;
            name.extend_from_slice(key.as_bytes())?;
            names.push(name)?;
        }
    }
    Ok(())
}

/// Adds the unknown keys of a value that is a table.
fn push_unknown_of(
    alloc: Global,
    names: &mut ItemList<Text8>,
    level: Level,
    prefix: &[u8],
    value: &Value,
) -> Result<(), OutOfMemory>
    ensures { OnOk result (names.new ≡ names.old ++ unknown_of level prefix.now (view value.now)) }
{
    match value.as_table() {
        Some(table) => push_unknown(alloc, names, level, prefix, table),
        None => Ok(()),
    }
}

/// Adds the unknown keys of the symbols.
fn push_unknown_in_symbols(
    alloc: Global,
    names: &mut ItemList<Text8>,
    values: &[Value],
) -> Result<(), OutOfMemory>
    ensures { OnOk result (names.new ≡ names.old ++ unknown_in_symbols 0 (items_view values.now)) }
{
    for i in 0..values.len() {
        let prefix = symbol_prefix(alloc, i as u64)?;
        push_unknown_of(alloc, names, Level::OfSymbol, prefix.as_slice(), &values[i])?;
    }
    Ok(())
}

/// Adds the unknown keys of the ranges.
fn push_unknown_in_ranges(
    alloc: Global,
    names: &mut ItemList<Text8>,
    table: &Table,
) -> Result<(), OutOfMemory>
    ensures { OnOk result (names.new ≡ names.old ++ unknown_in_ranges (table_view table.now)) }
{
    for (input, value) in table.iter() {
        let prefix = range_prefix(alloc, input.as_str())?;
        push_unknown_of(alloc, names, Level::OfRange, prefix.as_slice(), value)?;
    }
    Ok(())
}

/// Adds the unknown keys under `symbol`.
fn push_unknown_under_symbol(
    alloc: Global,
    names: &mut ItemList<Text8>,
    value: Option<&Value>,
) -> Result<(), OutOfMemory>
    ensures { OnOk result
        (names.new ≡ names.old ++ unknown_under_symbol (option_map (λ v. view v.now) value.entry)) }
{
    match value {
        Some(value) => match value.as_array() {
            Some(values) => push_unknown_in_symbols(alloc, names, values.as_slice()),
            None => Ok(()),
        },
        None => Ok(()),
    }
}

/// Adds the unknown keys under `optimise`.
fn push_unknown_under_optimise(
    alloc: Global,
    names: &mut ItemList<Text8>,
    value: Option<&Value>,
) -> Result<(), OutOfMemory>
    ensures { OnOk result
        (names.new ≡ names.old ++ unknown_under_optimise (option_map (λ v. view v.now) value.entry)) }
{
    match value {
        Some(value) => match value.as_table() {
            Some(table) => push_unknown_in_ranges(alloc, names, table),
            None => Ok(()),
        },
        None => Ok(()),
    }
}

/// All the unknown keys of a document.
fn unknown_names(alloc: Global, document: &Table) -> Result<ItemList<Text8>, OutOfMemory>
    ensures { IfOk result (λ names. names ≡ unknown_names (table_view document.now)) }
{
    let mut names = ItemList::new(alloc);
    push_unknown(alloc, &mut names, Level::Top, b"", document)?;
    push_unknown_under_symbol(alloc, &mut names, value_at(document, "symbol"))?;
    push_unknown_under_optimise(alloc, &mut names, value_at(document, "optimise"))?;
    Ok(names)
}

/// The lesser of two names, by their bytes.
fn lesser<'a>(name: &'a Text8, best: Option<&'a Text8>) -> &'a Text8
    ensures { result.now ≡ lesser name.now (option_copied best.entry) }
{
    match best {
        Some(best) => {
            if name.as_slice().cmp(best.as_slice()).is_lt() {
                name
            } else {
                best
            }
        }
        None => name,
    }
}

/// The first of names, by their bytes.
fn least(names: &[Text8]) -> Option<&Text8>
    ensures { option_copied result ≡ least names.now }
{
    let mut best = None;
    let mut rest = names;
    while let [name, tail @ ..] = rest {
        best = Some(lesser(name, best));
        rest = tail;
    }
    best
}

/// The first unknown key of a document, by the bytes of its full name.
pub(crate) fn first_unknown(alloc: Global, document: &Table) -> Result<Option<Text8>, OutOfMemory>
    ensures { IfOk result (λ name. name ≡ least (unknown_names (table_view document.now))) }
{
    let names = unknown_names(alloc, document)?;
    match least(names.as_slice()) {
        Some(name) => {
            let name = Text8::from_slice(alloc, name.as_slice())?;
            Ok(Some(name))
        }
        None => Ok(None),
    }
}
