//! Comparisons (MQL5 Reference, Language Basics, Operations and Expressions, Operations of Relation).
ghost use Rattle.std.specs.Prelude.{◌≡◌, ◌-ℤ◌, int_lt};
ghost use Rattle.fx8.specs.Integers.{is_zero};
ghost use Rattle.mql_meaning.specs.Operators as operators;
ghost use Rattle.mql_meaning.specs.declared.store.Store.{Store};
ghost use Rattle.store_cells.specs.Changes.{Gives};

use fx8::{IntKind, IntOperator};
use mql_mean::Value;
use store_cells::{End, Fault};

/// A truth as a value.
pub(crate) fn truth(holds: bool) -> Value
    ensures { result ≡ operators.bool holds }
{
    if holds {
        Value::Num(IntKind::Bool, 1)
    } else {
        Value::Num(IntKind::Bool, 0)
    }
}

fn less(x: i128, y: i128) -> bool
    ensures { result ≡ int_lt x y }
{
    x < y
}

#[tactic(auto, using(crate::proofs::Compared::nothing_between, crate::proofs::Compared::something_between))]
fn equal(x: i128, y: i128) -> bool
    ensures { result ≡ is_zero (x -ℤ y) }
{
    x == y
}

/// Whether two numbers compare so; `None` exactly where the operator does not compare.
fn compared(operator: IntOperator, x: i128, y: i128) -> Option<bool>
    ensures { result ≡ operators.compared operator x y }
{
    match operator {
        IntOperator::Less => Some(less(x, y)),
        IntOperator::LessOrEqual => Some(!less(y, x)),
        IntOperator::Greater => Some(less(y, x)),
        IntOperator::GreaterOrEqual => Some(!less(x, y)),
        IntOperator::Equal => Some(equal(x, y)),
        IntOperator::NotEqual => Some(!equal(x, y)),
        _ => None,
    }
}

/// A comparison of two numbers.
pub(crate) fn compare(operator: IntOperator, x: i128, y: i128) -> Result<Value, Fault>
    ensures { (store : Store) → Gives (operators.compare operator x y) result store }
{
    match compared(operator, x, y) {
        Some(holds) => Ok(truth(holds)),
        None => Err(Fault::End(End::Stuck)),
    }
}
