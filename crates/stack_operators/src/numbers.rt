//! Operators on numbers of integer kinds.
ghost use Rattle.std.specs.Prelude.{◌≡◌};
ghost use Rattle.mql_meaning.specs.Operators as operators;
ghost use Rattle.store_cells.specs.Changes.{Gives};

use fx8::{FixFault, IntKind, IntOperator, int_op, wrap};
use mql_mean::{ErrorKind, Value};
use mql_meaning::Store;
use store_cells::Fault;
use store_places::failed;

/// Whether an operator compares.
fn compares(operator: IntOperator) -> bool
    ensures { result ≡ operators.compares operator }
{
    match operator {
        IntOperator::Less => true,
        IntOperator::LessOrEqual => true,
        IntOperator::Greater => true,
        IntOperator::GreaterOrEqual => true,
        IntOperator::Equal => true,
        IntOperator::NotEqual => true,
        _ => false,
    }
}

/// The kind of what an operator gives: a comparison gives a `bool`, another operator a number of its kind.
fn kind_of_result(operator: IntOperator, kind: IntKind) -> IntKind
    ensures { result ≡ operators.kind_of_result operator kind }
{
    if compares(operator) {
        IntKind::Bool
    } else {
        kind
    }
}

/// An operator on two numbers, which are taken into its kind and wrap in it; `/` and `%` by 0 are an error at
/// the line in force.
pub(crate) fn on_numbers(
    operator: IntOperator,
    kind: IntKind,
    x: i128,
    y: i128,
    store: &Store,
) -> Result<Value, Fault>
    ensures { Gives (operators.on_numbers operator kind x y) result store.now }
{
    match int_op(operator, kind, wrap(kind, x), wrap(kind, y)) {
        Ok(number) => Ok(Value::Num(kind_of_result(operator, kind), number)),
        Err(FixFault::ZeroDivide) => Err(Fault::End(failed(ErrorKind::ZeroDivide, store))),
        Err(FixFault::Overflow) => Err(Fault::End(failed(ErrorKind::FixedOverflow, store))),
    }
}
