//! The native functions that look for elements (MQL5 Reference, ArrayMaximum, ArrayMinimum).
ghost use Rattle.natives.specs.declared.native.Native.TheVariants as natives;
ghost use Rattle.mql_meaning.specs.Natives.{computes};
ghost use Rattle.native_arguments.specs.Arguments.{all_shown};
ghost use Rattle.native_arguments.specs.Done.{Computes};

use crate::extreme_parts::{maximum, minimum};
use mql_meaning::Store;
use native_arguments::{Argument, NativeDone, cell_two_numbers};
use std::alloc::Global;
use store_cells::{End, Fault};

/// `ArrayMaximum`.
pub fn array_maximum(
    alloc: Global,
    arguments: &[Argument<'_>],
    store: &Store,
) -> Result<NativeDone, Fault>
    ensures { Computes (computes natives.ArrayMaximum (all_shown arguments.now)) result store.now }
{
    match cell_two_numbers(arguments) {
        Some((first, second, third)) => maximum(alloc, first, second, third, store),
        None => Err(Fault::End(End::Stuck)),
    }
}

/// `ArrayMinimum`.
pub fn array_minimum(
    alloc: Global,
    arguments: &[Argument<'_>],
    store: &Store,
) -> Result<NativeDone, Fault>
    ensures { Computes (computes natives.ArrayMinimum (all_shown arguments.now)) result store.now }
{
    match cell_two_numbers(arguments) {
        Some((first, second, third)) => minimum(alloc, first, second, third, store),
        None => Err(Fault::End(End::Stuck)),
    }
}
