//! Operands.

use mql_mean::Value;
use mql_meaning::Place;

/// What an expression gives: a value, or a place.
#[derive(Drop)]
pub enum Operand {
    Value(Value),
    Place(Place),
}
