//! The native function that copies elements (MQL5 Reference, ArrayCopy).
ghost use Rattle.natives.specs.declared.native.Native.TheVariants as natives;
ghost use Rattle.mql_meaning.specs.Natives.{computes};
ghost use Rattle.native_arguments.specs.Arguments.{all_shown};
ghost use Rattle.native_arguments.specs.Done.{Computes};

use crate::copy_arguments::copy_arguments;
use crate::copy_parts::copies;
use mql_meaning::Store;
use native_arguments::{Argument, NativeDone};
use std::alloc::Global;
use store_cells::{End, Fault};

/// `ArrayCopy`.
#[tactic(auto, using(crate::proofs::CopyRead::copies_none, crate::proofs::CopyRead::copies_some))]
pub fn array_copy(
    alloc: Global,
    arguments: &[Argument<'_>],
    store: &Store,
) -> Result<NativeDone, Fault>
    ensures { Computes (computes natives.ArrayCopy (all_shown arguments.now)) result store.now }
{
    match copy_arguments(arguments) {
        Some(read) => {
            copies(
                alloc,
                read.target,
                read.source,
                read.at,
                read.start,
                read.count,
                store,
            )
        }
        None => Err(Fault::End(End::Stuck)),
    }
}
