//! Operators on strings.
ghost use Rattle.std.specs.Prelude.{◌≡◌, ◌++◌, pos, IfOk};
ghost use Rattle.mql_meaning.specs.Operators as operators;
ghost use Rattle.mql_meaning.specs.declared.store.Store as stores;
ghost use Rattle.store_cells.specs.Changes.{Gives};

use crate::comparisons::compare;
use fx8::{IntOperator, OutOfMemory, Text};
use mql_mean::Value;
use mql_meaning::Store;
use native_strings::order;
use store_cells::Fault;
use store_values::text;

/// One string behind another.
fn joined(front: Text, back: Text) -> Result<Text, OutOfMemory>
    ensures { IfOk result (λ all. all ≡ front ++ back) }
{
    let mut all = front;
    all.append(back)?;
    Ok(all)
}

/// Which of two strings comes first by their units: -1 where the first does, 0 where they are equal, else 1.
fn rank(x: &[u16], y: &[u16]) -> i128
    ensures { result ≡ operators.order x.now y.now }
{
    order(x, y) as i128
}

/// A comparison of two strings by their units.
fn compare_strings(operator: IntOperator, x: &[u16], y: &[u16]) -> Result<Value, Fault>
    ensures { (store : stores.Store) →
        Gives (operators.compare operator (operators.order x.now y.now) (pos 0)) result store }
{
    compare(operator, rank(x, y), 0)
}

/// An operator on two strings: they are joined, or compared by units.
pub(crate) fn on_strings(
    operator: IntOperator,
    x: Text,
    y: Text,
    store: &Store,
) -> Result<Value, Fault>
    ensures { Gives (operators.on_strings operator x y) result store.now }
{
    match operator {
        IntOperator::Add => text(joined(x, y)?, store),
        _ => compare_strings(operator, x.as_slice(), y.as_slice()),
    }
}
