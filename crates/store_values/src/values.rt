//! Strings and doubles that a change gives, or its error.
ghost use Rattle.std.specs.Prelude.{◌≡◌, ◌≤◌, length};
ghost use Rattle.mql_meaning.specs.Operands.{text};
ghost use Rattle.mql_meaning.specs.Operators.{no_fault};
ghost use Rattle.store_cells.specs.Changes.{Gives};

use fx8::{Fix8, FixFault, Text};
use mql_mean::{ErrorKind, Value};
use mql_meaning::Store;
use store_cells::Fault;
use store_places::failed;

/// The longest string, in units.
const MOST_UNITS: u64 = 65_536;

/// A string; one that is too long is an error at the line in force.
pub fn text(units: Text, store: &Store) -> Result<Value, Fault>
    ensures { Gives (text units) result store.now }
{
    if units.len() <= MOST_UNITS {
        Ok(Value::Str(units))
    } else {
        Err(Fault::End(failed(ErrorKind::CellsExhausted, store)))
    }
}

/// A double; a fault of arithmetic is an error at the line in force.
pub fn no_fault(number: Result<Fix8, FixFault>, store: &Store) -> Result<Fix8, Fault>
    ensures { Gives (no_fault number) result store.now }
{
    match number {
        Ok(number) => Ok(number),
        Err(FixFault::Overflow) => Err(Fault::End(failed(ErrorKind::FixedOverflow, store))),
        Err(FixFault::ZeroDivide) => Err(Fault::End(failed(ErrorKind::ZeroDivide, store))),
    }
}
