//! Arrays that get the parts of strings, once arguments are read (MQL5 Reference, StringSplit).
ghost use Rattle.std.specs.Prelude.{◌≡◌, IfOk, map};
ghost use Rattle.mql_meaning.specs.Natives as meaning;
ghost use Rattle.native_arguments.specs.Arguments.{parts_of};
ghost use Rattle.native_arguments.specs.Done.{Computes};
ghost use Rattle.native_functions.specs.Strings.{text_cell};

use crate::values::{given_with, unit, whole};
use fx8::{ItemList, OutOfMemory, Stack, Text};
use mql_mean::Value;
use mql_meaning::{Cell, Store};
use native_arguments::{Array, NativeDone, refuses};
use native_strings::split;
use std::alloc::Global;
use store_cells::{Fault, copied_all};

/// Strings as cells.
fn text_cells(alloc: Global, texts: ItemList<Text>) -> Result<ItemList<Cell>, OutOfMemory>
    ensures { IfOk result (λ cells. cells ≡ map text_cell texts) }
{
    let mut rest = Stack::of_list(texts);
    let mut cells = ItemList::new(alloc);
    while let Some(text) = rest.pop() {
        cells.push(Cell::One(Value::Str(text)))?;
    }
    Ok(cells)
}

/// An array whose elements become the parts of a string between separators (StringSplit).
pub(crate) fn parts(
    alloc: Global,
    text: &[u16],
    separator: i128,
    array: Array<'_>,
    store: &Store,
) -> Result<NativeDone, Fault>
    ensures { Computes (meaning.splits text.now separator (parts_of array.entry)) result store.now }
{
    if !array.dynamic {
        return Ok(refuses(alloc, whole(0)));
    }
    let texts = split(alloc, unit(separator)?, text)?;
    let count = texts.len();
    let items = text_cells(alloc, texts)?;
    let unit = copied_all(alloc, array.unit.as_slice())?;
    let cell = Cell::Array(array.dynamic, array.series, unit, items);
    given_with(alloc, cell, whole(count), store)
}
