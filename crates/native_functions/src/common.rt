//! Native functions that look at none of their arguments (MQL5 Reference, Common Functions, Comment; Checkup,
//! IsStopped).
ghost use Rattle.std.specs.Prelude.{[]};
ghost use Rattle.natives.specs.declared.native.Native.TheVariants as natives;
ghost use Rattle.mql_meaning.specs.Natives.{computes};
ghost use Rattle.native_arguments.specs.Done.{Computes};

use crate::values::{given, truth_value, void_value};
use mql_meaning::Store;
use native_arguments::NativeDone;
use std::alloc::Global;
use store_cells::Fault;

/// `Comment`, whatever its arguments are.
pub fn comment(alloc: Global, store: &Store) -> Result<NativeDone, Fault>
    ensures { Computes (computes natives.Comment []) result store.now }
{
    given(alloc, void_value(), store)
}

/// `IsStopped`.
pub fn is_stopped(alloc: Global, store: &Store) -> Result<NativeDone, Fault>
    ensures { Computes (computes natives.IsStopped []) result store.now }
{
    given(alloc, truth_value(false), store)
}
