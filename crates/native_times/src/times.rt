//! The native functions of times and their fields (MQL5 Reference, Date and Time).
ghost use Rattle.natives.specs.declared.native.Native.TheVariants as natives;
ghost use Rattle.mql_meaning.specs.Natives.{computes};
ghost use Rattle.native_arguments.specs.Arguments.{all_shown};
ghost use Rattle.native_arguments.specs.Done.{Computes};

use crate::time_parts::{from_structure, to_structure};
use mql_meaning::Store;
use native_arguments::{Argument, NativeDone, number_cell, one_value};
use std::alloc::Global;
use store_cells::{End, Fault};

/// `TimeToStruct`.
pub fn time_to_struct(
    alloc: Global,
    arguments: &[Argument<'_>],
    store: &Store,
) -> Result<NativeDone, Fault>
    ensures { Computes (computes natives.TimeToStruct (all_shown arguments.now)) result store.now }
{
    match number_cell(arguments) {
        Some((first, second)) => to_structure(alloc, first, second, store),
        None => Err(Fault::End(End::Stuck)),
    }
}

/// `StructToTime`.
pub fn struct_to_time(
    alloc: Global,
    arguments: &[Argument<'_>],
    store: &Store,
) -> Result<NativeDone, Fault>
    ensures { Computes (computes natives.StructToTime (all_shown arguments.now)) result store.now }
{
    match one_value(arguments) {
        Some(first) => from_structure(alloc, first, store),
        None => Err(Fault::End(End::Stuck)),
    }
}
