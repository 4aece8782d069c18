//! Arrays that get other elements (MQL5 Reference, ArrayCopy).
ghost use Rattle.std.specs.Prelude.{◌≡◌, None, Some, IfOk, MatchOption};
ghost use Rattle.mql_meaning.specs.Changes.{either};
ghost use Rattle.mql_meaning.specs.StringFunctions.{part_of};
ghost use Rattle.mql_meaning.specs.ArrayFunctions as arrays;
ghost use Rattle.mql_meaning.specs.Natives as meaning;
ghost use Rattle.native_arguments.specs.Arguments.{parts_of};
ghost use Rattle.native_arguments.specs.Done.{Computes};
ghost use Rattle.native_array_functions.specs.Parts.{copy_into, put_elements};
ghost use Rattle.store_places.specs.Seen.{seen};

use crate::values::{cell_of, place_from};
use fx8::OutOfMemory;
use mql_meaning::{Cell, Store};
use native_arguments::{Array, NativeDone, refuses};
use native_arrays::{behind, copy_at, first_of, grown, leaves, size};
use native_functions::{given_with, whole};
use native_strings::{count_in, place_in};
use std::alloc::Global;
use store_cells::{End, Fault, copied_all};
use store_places::Seen;

/// How many of so many elements fit into an array from a place on; `None` exactly where the place is past its
/// end.
fn fitting(array: Array<'_>, place: u64, count: u64) -> Result<Option<u64>, OutOfMemory>
    ensures { IfOk result (λ n. n ≡ meaning.fitting (parts_of array.entry) place count) }
{
    if array.dynamic {
        return Ok(Some(count));
    }
    let all = size(array.unit.as_slice(), array.items.as_slice())?;
    if place > all {
        return Ok(None);
    }
    let left = all - place;
    Ok(Some(if count < left { count } else { left }))
}

/// An array that has room for so many elements behind so many, where its size changes.
fn with_room(alloc: Global, array: Array<'_>, place: u64, count: u64) -> Result<Cell, OutOfMemory>
    ensures { IfOk result (λ c. c ≡ arrays.rebuilt (either (parts_of array.entry).dynamic
        (arrays.grown (parts_of array.entry) place count) (parts_of array.entry))) }
{
    let items = copied_all(alloc, array.items.as_slice())?;
    let unit = copied_all(alloc, array.unit.as_slice())?;
    if !array.dynamic {
        return Ok(Cell::Array(array.dynamic, array.series, unit, items));
    }
    let items = grown(alloc, place, count, array.unit.as_slice(), items)?;
    Ok(Cell::Array(array.dynamic, array.series, unit, items))
}

/// An array gets elements from a place on.
#[tactic(auto, using(native_functions::proofs::Ranges::stops, native_functions::proofs::Ranges::goes))]
fn put_elements(
    alloc: Global,
    array: Array<'_>,
    place: u64,
    count: u64,
    elements: &[Cell],
    store: &Store,
) -> Result<NativeDone, Fault>
    ensures { Computes (put_elements (parts_of array.entry) place count elements.now) result store.now }
{
    let target = with_room(alloc, array, place, count)?;
    let new = copy_at(alloc, &target, place, elements, store)?;
    given_with(alloc, new, whole(count), store)
}

/// The part of some cells from a place on.
fn part_of(cells: &[Cell], start: u64, count: u64) -> &[Cell]
    ensures { result.now ≡ part_of cells.now start count }
{
    first_of(behind(cells, start), count)
}

/// An array gets some of so many elements (ArrayCopy); `OutOfMemory` where 64 bits do not hold the place.
#[tactic(auto, using(native_functions::proofs::Ranges::refused, native_functions::proofs::Ranges::within))]
fn copy_into(
    alloc: Global,
    array: Array<'_>,
    elements: &[Cell],
    at: i128,
    start: i128,
    count: i128,
    store: &Store,
) -> Result<NativeDone, Fault>
    ensures { Computes (copy_into (parts_of array.entry) elements.now at start count) result store.now }
{
    let Some(first) = place_in(start, elements.len() as u64) else {
        return Ok(refuses(alloc, whole(0)));
    };
    let Some(count) = count_in(count, elements.len() as u64 - first) else {
        return Ok(refuses(alloc, whole(0)));
    };
    let Some(place) = place_from(at)? else {
        return Ok(refuses(alloc, whole(0)));
    };
    let Some(fit) = fitting(array, place, count)? else {
        return Ok(refuses(alloc, whole(0)));
    };
    put_elements(
        alloc,
        array,
        place,
        fit,
        part_of(elements, first, fit),
        store,
    )
}

/// The array that is lent, where one is.
fn array_at(part: Seen<'_>) -> Option<Array<'_>>
    ensures { MatchOption result (arrays.array_of (seen part.entry) ≡ None)
        (λ a. arrays.array_of (seen part.entry) ≡ Some (parts_of a)) }
{
    match part {
        Seen::Cell(Cell::Array(dynamic, series, unit, items)) => Some(Array {
            dynamic: *dynamic,
            series: *series,
            unit,
            items,
        }),
        Seen::Cell(_) => None,
        Seen::Object(_) => None,
    }
}

/// An array gets elements of another one (ArrayCopy).
#[tactic(auto, using(crate::proofs::Copied::copies_none, crate::proofs::Copied::copies_some))]
pub(crate) fn copies(
    alloc: Global,
    target: Seen<'_>,
    source: Seen<'_>,
    at: i128,
    start: i128,
    count: i128,
    store: &Store,
) -> Result<NativeDone, Fault>
    ensures { Computes (meaning.copies (seen target.entry) (seen source.entry) at start count)
        result store.now }
{
    let Some(array) = array_at(target) else {
        return Err(Fault::End(End::Stuck));
    };
    let source = cell_of(alloc, source)?;
    let elements = leaves(alloc, &source)?;
    copy_into(alloc, array, elements.as_slice(), at, start, count, store)
}
