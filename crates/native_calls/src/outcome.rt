//! What a native function comes to, before it is written to its reference arguments.

use fx8::ItemList;
use mql_mean::Value;
use mql_meaning::Cell;

/// A reply that the call may give, with the cells that it makes of the reference arguments.
#[derive(Drop)]
pub(crate) struct Fitting {
    /// The value of the reply.
    pub(crate) value: Value,
    /// What the reference arguments become.
    pub(crate) news: ItemList<Cell>,
}

/// What a native function comes to.
#[derive(Drop)]
pub(crate) struct Outcome {
    /// Its value; that of a void function is the 0 of `int`.
    pub(crate) value: Value,
    /// What its first reference arguments become.
    pub(crate) news: ItemList<Cell>,
    /// How many cells each of its reference arguments took before.
    pub(crate) counts: ItemList<u64>,
    /// Whether an argument was out of range.
    pub(crate) out_of_range: bool,
}
