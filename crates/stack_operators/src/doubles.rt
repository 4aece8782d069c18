//! Operators on doubles.
ghost use Rattle.std.specs.Prelude.{◌≡◌};
ghost use Rattle.mql_meaning.specs.Operators as operators;
ghost use Rattle.mql_meaning.specs.declared.store.Store as stores;
ghost use Rattle.store_cells.specs.Changes.{Gives};
ghost use Rattle.stack_operators.specs.Steps.{a_double};

use crate::comparisons::compare;
use fx8::{Fix8, FixFault, IntOperator};
use mql_mean::{ErrorKind, Value};
use mql_meaning::Store;
use store_cells::Fault;
use store_places::failed;

/// A double, or the error of a fault of arithmetic at the line in force.
pub(crate) fn a_double(number: Result<Fix8, FixFault>, store: &Store) -> Result<Value, Fault>
    ensures { Gives (a_double number) result store.now }
{
    match number {
        Ok(number) => Ok(Value::Dbl(number)),
        Err(FixFault::ZeroDivide) => Err(Fault::End(failed(ErrorKind::ZeroDivide, store))),
        Err(FixFault::Overflow) => Err(Fault::End(failed(ErrorKind::FixedOverflow, store))),
    }
}

/// How many units of 10^-8 a double is.
fn units(x: Fix8) -> i128
    ensures { result ≡ x }
{
    x.units() as i128
}

/// A comparison of two doubles.
fn compare_doubles(operator: IntOperator, x: Fix8, y: Fix8) -> Result<Value, Fault>
    ensures { (store : stores.Store) → Gives (operators.compare operator x y) result store }
{
    compare(operator, units(x), units(y))
}

/// An operator on two doubles: exact, or rounded half away from zero; what 64 bits do not hold, and `/` by 0,
/// are errors at the line in force.
pub(crate) fn on_doubles(
    operator: IntOperator,
    x: Fix8,
    y: Fix8,
    store: &Store,
) -> Result<Value, Fault>
    ensures { Gives (operators.on_doubles operator x y) result store.now }
{
    match operator {
        IntOperator::Add => a_double(x.add(y), store),
        IntOperator::Subtract => a_double(x.sub(y), store),
        IntOperator::Multiply => a_double(x.mul(y), store),
        IntOperator::Divide => a_double(x.div(y), store),
        _ => compare_doubles(operator, x, y),
    }
}
