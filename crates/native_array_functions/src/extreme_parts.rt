//! The places of the greatest and of the least element (MQL5 Reference, ArrayMaximum, ArrayMinimum).
ghost use Rattle.std.specs.Prelude.{◌≡◌, ◌≤◌, drop, int_lt, length, take, IfOk};
ghost use Rattle.mql_meaning.specs.ArrayFunctions as arrays;
ghost use Rattle.mql_meaning.specs.Natives as meaning;
ghost use Rattle.native_arguments.specs.Done.{Computes};
ghost use Rattle.native_arrays.specs.Extremes.{better};
ghost use Rattle.native_array_functions.specs.Parts.{among};
ghost use Rattle.store_places.specs.Seen.{seen};

use crate::values::{cell_of, minus_one};
use fx8::{ItemList, OutOfMemory};
use mql_meaning::Store;
use native_arguments::{NativeDone, refuses};
use native_arrays::{Extreme, best, leaves, numbers};
use native_functions::{given, whole};
use native_strings::{count_in, place_in};
use std::alloc::Global;
use store_cells::{End, Fault};
use store_places::Seen;

/// The numbers of the elements of what is lent; `None` exactly where one has none.
fn all_numbers(alloc: Global, part: Seen<'_>) -> Result<Option<ItemList<i128>>, OutOfMemory>
    ensures { IfOk result (λ ns. ns ≡ arrays.numbers (arrays.leaves (seen part.entry))) }
{
    let cell = cell_of(alloc, part)?;
    let elements = leaves(alloc, &cell)?;
    numbers(alloc, elements.as_slice())
}

/// What stands behind a place.
fn behind(list: &[i128], place: u64) -> &[i128]
    requires { place ≤ length list.now }
    ensures { result.now ≡ drop place list.now }
{
    &list[place as usize..]
}

/// At most so many numbers.
fn first_of(list: &[i128], count: u64) -> &[i128]
    requires { count ≤ length list.now }
    ensures { result.now ≡ take count list.now }
{
    &list[..count as usize]
}

/// The place of the best among numbers from a place on.
#[tactic(auto, using(native_functions::proofs::Ranges::refused, native_functions::proofs::Ranges::within))]
fn best_among(
    alloc: Global,
    extreme: Extreme,
    list: &[i128],
    start: i128,
    count: i128,
    store: &Store,
) -> Result<NativeDone, Fault>
    ensures { Computes (among (better extreme) list.now start count) result store.now }
{
    let Some(place) = place_in(start, list.len() as u64) else {
        return Ok(refuses(alloc, minus_one()));
    };
    let Some(count) = count_in(count, list.len() as u64 - place) else {
        return Ok(refuses(alloc, minus_one()));
    };
    let Some(at) = best(extreme, place, first_of(behind(list, place), count)) else {
        return Ok(refuses(alloc, minus_one()));
    };
    given(alloc, whole(at), store)
}

/// The place of the best element from a place on.
#[tactic(auto, using(native_functions::proofs::Ranges::there, native_functions::proofs::Ranges::not_there))]
fn best_place(
    alloc: Global,
    extreme: Extreme,
    part: Seen<'_>,
    start: i128,
    count: i128,
    store: &Store,
) -> Result<NativeDone, Fault>
    ensures { Computes (meaning.extreme (better extreme) (seen part.entry) start count) result store.now }
{
    let Some(list) = all_numbers(alloc, part)? else {
        return Err(Fault::End(End::Stuck));
    };
    best_among(alloc, extreme, list.as_slice(), start, count, store)
}

/// The place of the greatest element from a place on (ArrayMaximum).
pub(crate) fn maximum(
    alloc: Global,
    part: Seen<'_>,
    start: i128,
    count: i128,
    store: &Store,
) -> Result<NativeDone, Fault>
    ensures { Computes (meaning.extreme (λ y x. int_lt x y) (seen part.entry) start count) result store.now }
{
    best_place(alloc, Extreme::Greatest, part, start, count, store)
}

/// The place of the least element from a place on (ArrayMinimum).
pub(crate) fn minimum(
    alloc: Global,
    part: Seen<'_>,
    start: i128,
    count: i128,
    store: &Store,
) -> Result<NativeDone, Fault>
    ensures { Computes (meaning.extreme (λ y x. int_lt y x) (seen part.entry) start count) result store.now }
{
    best_place(alloc, Extreme::Least, part, start, count, store)
}
