//! The values and the ranges of inputs.
ghost use Rattle.std.specs.Prelude.{◌≡◌, IfOk, codes};
ghost use Rattle.toml.specs.View.{view, table_view};
ghost use Rattle.settings_file.specs.Entries.{word_of, value_text, assignment, assignments, range_text, range_in, range, ranges, inputs_in, optimise_in};
ghost use Rattle.settings_file.specs.Names.{range_prefix};
ghost use Rattle.settings_file.specs.Faults.{IsAnswer};

use crate::fault::{SettingsFault, key_fault};
use crate::keys::{KeyFault, table_data, value_at};
use crate::names::range_prefix;
use fx8::{ItemList, OutOfMemory, Text8};
use std::alloc::Global;
use tester_settings::{Assignment, Assignments, InputRange, InputRanges};
use toml::{Table, Value};

fn word_of(b: bool) -> &'static str
    ensures { result.now ≡ word_of b }
{
    if b { "true" } else { "false" }
}

/// The text of a value of an input; `None` where it is of another kind.
fn value_text(alloc: Global, value: &Value) -> Result<Option<Text8>, OutOfMemory>
    ensures { IfOk result (λ text. text ≡ value_text (view value.now)) }
{
    if let Some(text) = value.as_str() {
        let text = Text8::from_slice(alloc, text.as_bytes())?;
        return Ok(Some(text));
    }
    if let Some(number) = value.as_integer() {
        let mut buffer = itoa::Buffer::new();
        let text = Text8::from_slice(alloc, buffer.format(number).as_bytes())?;
        return Ok(Some(text));
    }
    if let Some(b) = value.as_bool() {
        let text = Text8::from_slice(alloc, word_of(b).as_bytes())?;
        return Ok(Some(text));
    }
    Ok(None)
}

/// The value of an input.
fn assignment(alloc: Global, input: &str, value: &Value) -> Result<Assignment, SettingsFault>
    ensures { IsAnswer (assignment input.now (view value.now)) result }
{
    match value_text(alloc, value)? {
        Some(text) => {
            let name = Text8::from_slice(alloc, input.as_bytes())?;
            Ok(Assignment { name, text })
        }
        None => Err(key_fault(alloc, KeyFault::WrongKind, b"inputs.", input)),
    }
}

/// The values of inputs.
fn assignments(alloc: Global, table: &Table) -> Result<Assignments, SettingsFault>
    ensures { IsAnswer (assignments (table_view table.now)) result }
{
    let mut entries = ItemList::new(alloc);
    for (input, value) in table.iter() {
        match assignment(alloc, input.as_str(), value) {
            Ok(entry) => entries.push(entry)?,
            Err(fault) => return Err(fault),
        }
    }
    Ok(entries)
}

/// A text of a range.
fn range_text(
    alloc: Global,
    prefix: &[u8],
    key: &str,
    table: &Table,
) -> Result<Text8, SettingsFault>
    ensures { IsAnswer (range_text prefix.now key.now (table_view table.now)) result }
{
    match value_at(table, key) {
        None => Err(key_fault(alloc, KeyFault::Missing, prefix, key)),
        Some(value) => match value_text(alloc, value)? {
            Some(text) => Ok(text),
            None => Err(key_fault(alloc, KeyFault::WrongKind, prefix, key)),
        },
    }
}

/// The range of a table, whose keys are named after a prefix.
fn range_in(
    alloc: Global,
    input: &str,
    prefix: &[u8],
    table: &Table,
) -> Result<InputRange, SettingsFault>
    requires { prefix.now ≡ range_prefix input.now }
    ensures { IsAnswer (range_in input.now (table_view table.now)) result }
{
    let start = match range_text(alloc, prefix, "start", table) {
        Ok(start) => start,
        Err(fault) => return Err(fault),
    };
    let step = match range_text(alloc, prefix, "step", table) {
        Ok(step) => step,
        Err(fault) => return Err(fault),
    };
    let stop = match range_text(alloc, prefix, "stop", table) {
        Ok(stop) => stop,
        Err(fault) => return Err(fault),
    };
    let name = Text8::from_slice(alloc, input.as_bytes())?;
    Ok(InputRange {
        name,
        start,
        step,
        stop,
    })
}

/// The range of an input.
fn range(alloc: Global, input: &str, value: &Value) -> Result<InputRange, SettingsFault>
    ensures { IsAnswer (range input.now (view value.now)) result }
{
    match table_data(value) {
        Ok(table) => {
            let prefix = range_prefix(alloc, input)?;
            range_in(alloc, input, prefix.as_slice(), table)
        }
        Err(fault) => Err(key_fault(alloc, fault, b"optimise.", input)),
    }
}

/// The ranges of inputs.
fn ranges(alloc: Global, table: &Table) -> Result<InputRanges, SettingsFault>
    ensures { IsAnswer (ranges (table_view table.now)) result }
{
    let mut entries = ItemList::new(alloc);
    for (input, value) in table.iter() {
        match range(alloc, input.as_str(), value) {
            Ok(entry) => entries.push(entry)?,
            Err(fault) => return Err(fault),
        }
    }
    Ok(entries)
}

/// What a document has under `inputs`.
#[tactic(auto, unfolding(crate::specs::Entries::assignments))]
pub(crate) fn inputs_in(alloc: Global, document: &Table) -> Result<Assignments, SettingsFault>
    ensures { IsAnswer (inputs_in (table_view document.now)) result }
{
    match value_at(document, "inputs") {
        None => Ok(ItemList::new(alloc)),
        Some(value) => match table_data(value) {
            Ok(table) => assignments(alloc, table),
            Err(fault) => Err(key_fault(alloc, fault, b"", "inputs")),
        },
    }
}

/// What a document has under `optimise`.
#[tactic(auto, unfolding(crate::specs::Entries::ranges))]
pub(crate) fn optimise_in(alloc: Global, document: &Table) -> Result<InputRanges, SettingsFault>
    ensures { IsAnswer (optimise_in (table_view document.now)) result }
{
    match value_at(document, "optimise") {
        None => Ok(ItemList::new(alloc)),
        Some(value) => match table_data(value) {
            Ok(table) => ranges(alloc, table),
            Err(fault) => Err(key_fault(alloc, fault, b"", "optimise")),
        },
    }
}
