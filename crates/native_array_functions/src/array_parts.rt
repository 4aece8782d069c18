//! Native functions of arrays, once their arguments are read (MQL5 Reference, Array Functions; Common
//! Functions, ZeroMemory).
ghost use Rattle.std.specs.Prelude.{◌≡◌, ◌*◌, [], ◌∷◌, true, IfOk, not, pos};
ghost use Rattle.fx8.specs.Integers.{is_zero};
ghost use Rattle.mql_meaning.specs.Changes.{then_some};
ghost use Rattle.mql_meaning.specs.StringFunctions.{place_in};
ghost use Rattle.mql_meaning.specs.ArrayFunctions as arrays;
ghost use Rattle.mql_meaning.specs.Natives as meaning;
ghost use Rattle.native_arguments.specs.Arguments.{parts_of};
ghost use Rattle.native_arguments.specs.Done.{Computes};
ghost use Rattle.native_array_functions.specs.Parts.{fills};
ghost use Rattle.store_places.specs.Seen.{seen};

use crate::values::{cell_of, minus_one, place_from, void_value};
use fx8::OutOfMemory;
use mql_mean::Value;
use mql_meaning::{Cell, Store};
use native_arguments::{Array, NativeDone, refuses};
use native_arrays::{
    filled, leaf_count, leaves, per_place, range, refilled, resized, size, sorted, zeroed,
};
use native_functions::{given, given_with, truth_value, whole};
use native_strings::place_in;
use std::alloc::Global;
use store_cells::{Fault, copied_all};
use store_places::Seen;

/// How many elements an array has (ArraySize).
pub(crate) fn element_count(
    alloc: Global,
    array: Array<'_>,
    store: &Store,
) -> Result<NativeDone, Fault>
    ensures { Computes (meaning.gives (meaning.whole (arrays.size (parts_of array.entry)))) result store.now }
{
    let count = size(array.unit.as_slice(), array.items.as_slice())?;
    given(alloc, whole(count), store)
}

/// How many elements the dimension of a number has, where there is one.
fn dimension_size(array: Array<'_>, dimension: i128) -> Option<u64>
    ensures { result ≡ then_some (place_in dimension 3)
        (λ k. arrays.range k (parts_of array.entry).unit (parts_of array.entry).cells) }
{
    let dimension = place_in(dimension, 3)?;
    range(dimension, array.unit.as_slice(), array.items.as_slice())
}

/// How many elements a dimension of an array has (ArrayRange).
#[tactic(auto, using(native_functions::proofs::Ranges::refused, native_functions::proofs::Ranges::within))]
pub(crate) fn dimension_count(
    alloc: Global,
    array: Array<'_>,
    dimension: i128,
    store: &Store,
) -> Result<NativeDone, Fault>
    ensures { Computes (meaning.in_range (meaning.whole 0) (then_some (place_in dimension 3)
        (λ k. arrays.range k (parts_of array.entry).unit (parts_of array.entry).cells))
        (λ n. meaning.gives (meaning.whole n))) result store.now }
{
    let Some(count) = dimension_size(array, dimension) else {
        return Ok(refuses(alloc, whole(0)));
    };
    given(alloc, whole(count), store)
}

/// An array with so many places of the first dimension.
fn resized_array(alloc: Global, array: Array<'_>, places: u64) -> Result<Cell, OutOfMemory>
    ensures { IfOk result (λ c. c ≡ arrays.rebuilt (arrays.resized places (parts_of array.entry))) }
{
    let items = copied_all(alloc, array.items.as_slice())?;
    let items = resized(alloc, places, array.unit.as_slice(), items)?;
    let unit = copied_all(alloc, array.unit.as_slice())?;
    Ok(Cell::Array(array.dynamic, array.series, unit, items))
}

/// How many elements so many places of an array have.
fn elements_in(array: Array<'_>, places: u64) -> Result<u64, OutOfMemory>
    ensures { IfOk result (λ n. n ≡ places * arrays.per_place (parts_of array.entry).unit) }
{
    let each = per_place(array.unit.as_slice())?;
    match places.checked_mul(each) {
        Some(count) => Ok(count),
        None => Err(OutOfMemory),
    }
}

/// An array whose size changes gets so many places.
fn with_places(
    alloc: Global,
    array: Array<'_>,
    places: u64,
    store: &Store,
) -> Result<NativeDone, Fault>
    ensures { Computes (meaning.resizes (parts_of array.entry) (pos places)) result store.now }
{
    if !array.dynamic {
        return Ok(refuses(alloc, minus_one()));
    }
    let count = elements_in(array, places)?;
    let new = resized_array(alloc, array, places)?;
    given_with(alloc, new, whole(count), store)
}

/// An array gets so many places of its first dimension (ArrayResize); `OutOfMemory` where 64 bits do not hold
/// their number.
#[tactic(auto, using(crate::proofs::Copied::no_size, crate::proofs::Copied::some_size))]
pub(crate) fn with_size(
    alloc: Global,
    array: Array<'_>,
    count: i128,
    store: &Store,
) -> Result<NativeDone, Fault>
    ensures { Computes (meaning.resizes (parts_of array.entry) count) result store.now }
{
    match place_from(count)? {
        Some(places) => with_places(alloc, array, places, store),
        None => Ok(refuses(alloc, minus_one())),
    }
}

/// An array loses its elements (ArrayFree).
pub(crate) fn freed(alloc: Global, array: Array<'_>, store: &Store) -> Result<NativeDone, Fault>
    ensures { Computes (meaning.frees (parts_of array.entry)) result store.now }
{
    if !array.dynamic {
        return Ok(refuses(alloc, void_value()));
    }
    let new = resized_array(alloc, array, 0)?;
    given_with(alloc, new, void_value(), store)
}

/// The elements of an array get a number each (ArrayInitialize).
#[tactic(auto, using(native_functions::proofs::Ranges::stops, native_functions::proofs::Ranges::goes))]
pub(crate) fn initialized(
    alloc: Global,
    target: Seen<'_>,
    value: &Value,
    store: &Store,
) -> Result<NativeDone, Fault>
    ensures { Computes (fills (seen target.entry) value.now) result store.now }
{
    let cell = cell_of(alloc, target)?;
    let count = leaf_count(&cell)?;
    let new = filled(alloc, &cell, value, store)?;
    given_with(alloc, new, whole(count), store)
}

/// An array is indexed from its end, or from its beginning (ArraySetAsSeries).
pub(crate) fn with_series(
    alloc: Global,
    array: Array<'_>,
    flag: i128,
    store: &Store,
) -> Result<NativeDone, Fault>
    ensures { Computes (meaning.gives_with (arrays.rebuilt (record (parts_of array.entry)
        { series = not (is_zero flag) }) ∷ []) (meaning.truth_value true)) result store.now }
{
    let items = copied_all(alloc, array.items.as_slice())?;
    let unit = copied_all(alloc, array.unit.as_slice())?;
    let new = Cell::Array(array.dynamic, flag != 0, unit, items);
    given_with(alloc, new, truth_value(true), store)
}

/// Whether an array is indexed from its end (ArrayGetAsSeries).
pub(crate) fn is_series(alloc: Global, array: Array<'_>, store: &Store) -> Result<NativeDone, Fault>
    ensures { Computes (meaning.gives (meaning.truth_value (parts_of array.entry).series)) result store.now }
{
    given(alloc, truth_value(array.series), store)
}

/// Whether the size of an array changes (ArrayIsDynamic).
pub(crate) fn is_dynamic(
    alloc: Global,
    array: Array<'_>,
    store: &Store,
) -> Result<NativeDone, Fault>
    ensures { Computes (meaning.gives (meaning.truth_value (parts_of array.entry).dynamic)) result store.now }
{
    given(alloc, truth_value(array.dynamic), store)
}

/// The elements of an array in rising order (ArraySort).
pub(crate) fn in_order(alloc: Global, target: Seen<'_>, store: &Store) -> Result<NativeDone, Fault>
    ensures { Computes (meaning.gives_with (arrays.refilled (seen target.entry)
        (arrays.sorted (arrays.leaves (seen target.entry))) ∷ []) (meaning.truth_value true))
        result store.now }
{
    let cell = cell_of(alloc, target)?;
    let rising = sorted(alloc, leaves(alloc, &cell)?)?;
    let new = refilled(alloc, &cell, rising.as_slice())?;
    given_with(alloc, new, truth_value(true), store)
}

/// A variable as it began (ZeroMemory).
pub(crate) fn as_begun(alloc: Global, target: Seen<'_>, store: &Store) -> Result<NativeDone, Fault>
    ensures { Computes (meaning.gives_with (arrays.zeroed (seen target.entry) ∷ []) meaning.void_value)
        result store.now }
{
    let cell = cell_of(alloc, target)?;
    let new = zeroed(alloc, &cell)?;
    given_with(alloc, new, void_value(), store)
}
