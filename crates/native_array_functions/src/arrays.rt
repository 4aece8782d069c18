//! The native functions of arrays (MQL5 Reference, Array Functions; ZeroMemory).
ghost use Rattle.natives.specs.declared.native.Native.TheVariants as natives;
ghost use Rattle.mql_meaning.specs.Natives.{computes};
ghost use Rattle.native_arguments.specs.Arguments.{all_shown};
ghost use Rattle.native_arguments.specs.Done.{Computes};

use crate::array_parts::{
    as_begun, dimension_count, element_count, freed, in_order, initialized, is_dynamic, is_series,
    with_series, with_size,
};
use mql_meaning::Store;
use native_arguments::{
    Argument, NativeDone, array_number, array_two_numbers, cell_value, one_array, one_cell,
};
use std::alloc::Global;
use store_cells::{End, Fault};

/// `ArraySize`.
pub fn array_size(
    alloc: Global,
    arguments: &[Argument<'_>],
    store: &Store,
) -> Result<NativeDone, Fault>
    ensures { Computes (computes natives.ArraySize (all_shown arguments.now)) result store.now }
{
    match one_array(arguments) {
        Some(first) => element_count(alloc, first, store),
        None => Err(Fault::End(End::Stuck)),
    }
}

/// `ArrayRange`.
pub fn array_range(
    alloc: Global,
    arguments: &[Argument<'_>],
    store: &Store,
) -> Result<NativeDone, Fault>
    ensures { Computes (computes natives.ArrayRange (all_shown arguments.now)) result store.now }
{
    match array_number(arguments) {
        Some((first, second)) => dimension_count(alloc, first, second, store),
        None => Err(Fault::End(End::Stuck)),
    }
}

/// `ArrayResize`; the reserve changes nothing that a program sees.
pub fn array_resize(
    alloc: Global,
    arguments: &[Argument<'_>],
    store: &Store,
) -> Result<NativeDone, Fault>
    ensures { Computes (computes natives.ArrayResize (all_shown arguments.now)) result store.now }
{
    match array_two_numbers(arguments) {
        Some((first, second, _)) => with_size(alloc, first, second, store),
        None => Err(Fault::End(End::Stuck)),
    }
}

/// `ArrayFree`.
pub fn array_free(
    alloc: Global,
    arguments: &[Argument<'_>],
    store: &Store,
) -> Result<NativeDone, Fault>
    ensures { Computes (computes natives.ArrayFree (all_shown arguments.now)) result store.now }
{
    match one_array(arguments) {
        Some(first) => freed(alloc, first, store),
        None => Err(Fault::End(End::Stuck)),
    }
}

/// `ArrayInitialize`.
pub fn array_initialize(
    alloc: Global,
    arguments: &[Argument<'_>],
    store: &Store,
) -> Result<NativeDone, Fault>
    ensures { Computes (computes natives.ArrayInitialize (all_shown arguments.now)) result store.now }
{
    match cell_value(arguments) {
        Some((first, second)) => initialized(alloc, first, second, store),
        None => Err(Fault::End(End::Stuck)),
    }
}

/// `ArraySetAsSeries`.
pub fn array_set_as_series(
    alloc: Global,
    arguments: &[Argument<'_>],
    store: &Store,
) -> Result<NativeDone, Fault>
    ensures { Computes (computes natives.ArraySetAsSeries (all_shown arguments.now)) result store.now }
{
    match array_number(arguments) {
        Some((first, second)) => with_series(alloc, first, second, store),
        None => Err(Fault::End(End::Stuck)),
    }
}

/// `ArrayGetAsSeries`.
pub fn array_get_as_series(
    alloc: Global,
    arguments: &[Argument<'_>],
    store: &Store,
) -> Result<NativeDone, Fault>
    ensures { Computes (computes natives.ArrayGetAsSeries (all_shown arguments.now)) result store.now }
{
    match one_array(arguments) {
        Some(first) => is_series(alloc, first, store),
        None => Err(Fault::End(End::Stuck)),
    }
}

/// `ArraySort`.
pub fn array_sort(
    alloc: Global,
    arguments: &[Argument<'_>],
    store: &Store,
) -> Result<NativeDone, Fault>
    ensures { Computes (computes natives.ArraySort (all_shown arguments.now)) result store.now }
{
    match one_cell(arguments) {
        Some(first) => in_order(alloc, first, store),
        None => Err(Fault::End(End::Stuck)),
    }
}

/// `ArrayIsDynamic`.
pub fn array_is_dynamic(
    alloc: Global,
    arguments: &[Argument<'_>],
    store: &Store,
) -> Result<NativeDone, Fault>
    ensures { Computes (computes natives.ArrayIsDynamic (all_shown arguments.now)) result store.now }
{
    match one_array(arguments) {
        Some(first) => is_dynamic(alloc, first, store),
        None => Err(Fault::End(End::Stuck)),
    }
}

/// `ZeroMemory`.
pub fn zero_memory(
    alloc: Global,
    arguments: &[Argument<'_>],
    store: &Store,
) -> Result<NativeDone, Fault>
    ensures { Computes (computes natives.ZeroMemory (all_shown arguments.now)) result store.now }
{
    match one_cell(arguments) {
        Some(first) => as_begun(alloc, first, store),
        None => Err(Fault::End(End::Stuck)),
    }
}
