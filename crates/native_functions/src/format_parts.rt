//! Texts of formats, and their arguments (MQL5 Reference, StringFormat).
ghost use Rattle.std.specs.Prelude.{◌≡◌, IfOk};
ghost use Rattle.mql_meaning.specs.Natives as meaning;
ghost use Rattle.native_arguments.specs.Arguments.{all_shown, all_values};
ghost use Rattle.native_arguments.specs.Done.{Computes};

use crate::values::given_text;
use fx8::{FixFault, ItemList, OutOfMemory};
use mql_mean::{ErrorKind, Value, ValueList};
use mql_meaning::Store;
use native_arguments::{Argument, NativeDone, value};
use native_formats::format;
use std::alloc::Global;
use store_cells::{End, Fault};
use store_places::failed;

/// Arguments that are values; `None` exactly where one is none.
#[tactic(auto, using(crate::proofs::Formatted::before_none, crate::proofs::Formatted::before_one, crate::proofs::Formatted::before_end))]
pub(crate) fn values(
    alloc: Global,
    arguments: &[Argument<'_>],
) -> Result<Option<ValueList>, OutOfMemory>
    ensures { IfOk result (λ vs. vs ≡ all_values (all_shown arguments.now)) }
{
    let mut all = ItemList::new(alloc);
    for argument in arguments {
        let Some(value) = value(*argument) else {
            return Ok(None);
        };
        all.push(value.copy(alloc)?)?;
    }
    Ok(Some(all))
}

/// The text of a format with arguments; a whole number that is to be written as a `double` that does not hold
/// it is an error at the line in force.
pub(crate) fn formatted(
    alloc: Global,
    text: &[u16],
    values: &[Value],
    store: &Store,
) -> Result<NativeDone, Fault>
    ensures { Computes (meaning.formats text.now values.now) result store.now }
{
    match format(alloc, text, values)? {
        Ok(units) => given_text(alloc, units, store),
        Err(FixFault::Overflow) => Err(Fault::End(failed(ErrorKind::FixedOverflow, store))),
        Err(FixFault::ZeroDivide) => Err(Fault::End(failed(ErrorKind::ZeroDivide, store))),
    }
}
