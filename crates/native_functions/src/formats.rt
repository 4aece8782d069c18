//! The native function of formats (MQL5 Reference, Conversion Functions, StringFormat).
ghost use Rattle.natives.specs.declared.native.Native.TheVariants as natives;
ghost use Rattle.mql_meaning.specs.Natives.{computes};
ghost use Rattle.native_arguments.specs.Arguments.{all_shown};
ghost use Rattle.native_arguments.specs.Done.{Computes};

use crate::format_parts::{formatted, values};
use mql_meaning::Store;
use native_arguments::{Argument, NativeDone, string};
use std::alloc::Global;
use store_cells::{End, Fault};

/// `StringFormat`.
#[tactic(auto, using(crate::proofs::Formatted::nothing_given, crate::proofs::Formatted::no_text, crate::proofs::Formatted::no_values, crate::proofs::Formatted::all_given))]
pub fn string_format(
    alloc: Global,
    arguments: &[Argument<'_>],
    store: &Store,
) -> Result<NativeDone, Fault>
    ensures { Computes (computes natives.StringFormat (all_shown arguments.now)) result store.now }
{
    let Some((first, others)) = arguments.split_first() else {
        return Err(Fault::End(End::Stuck));
    };
    let Some(text) = string(*first) else {
        return Err(Fault::End(End::Stuck));
    };
    let Some(values) = values(alloc, others)? else {
        return Err(Fault::End(End::Stuck));
    };
    formatted(alloc, text, values.as_slice(), store)
}
