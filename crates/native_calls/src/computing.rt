//! Native functions that ask no world.
ghost use Rattle.std.specs.Prelude.{◌≡◌};
ghost use Rattle.native_arguments.specs.Arguments.{all_shown};
ghost use Rattle.native_calls.specs.Outcomes.{computed};
ghost use Rattle.store_cells.specs.Changes.{Gives};

use crate::lending::weights;
use crate::outcome::Outcome;
use mql_meaning::Store;
use native_arguments::Argument;
use native_dispatch::computes;
use natives::Native;
use std::alloc::Global;
use store_cells::Fault;

/// What a native function that asks no world comes to.
#[tactic(auto, using(crate::proofs::Computed::gives, crate::proofs::Computed::ends))]
pub(crate) fn computed(
    alloc: Global,
    native: Native,
    arguments: &[Argument<'_>],
    store: &Store,
) -> Result<Outcome, Fault>
    ensures { Gives (computed native (all_shown arguments.now)) result store.now }
{
    let counts = weights(alloc, arguments)?;
    match computes(alloc, native, arguments, store) {
        Ok(done) => Ok(Outcome {
            value: done.value,
            news: done.outs,
            counts,
            out_of_range: done.out_of_range,
        }),
        Err(fault) => Err(fault),
    }
}
