//! Arguments of native functions.

use fx8::ItemList;
use mql_mean::Value;
use mql_meaning::Cell;
use store_places::Seen;

/// An argument of a native function, lent.
#[derive(Clone, Copy)]
pub enum Argument<'a> {
    /// A value.
    Given(&'a Value),
    /// What stands at a place.
    Lent(Seen<'a>),
}

/// An array that is lent.
#[derive(Clone, Copy)]
pub struct Array<'a> {
    /// Whether its size changes.
    pub dynamic: bool,
    /// Whether it is indexed from its end.
    pub series: bool,
    /// One element as it begins.
    pub unit: &'a ItemList<Cell>,
    /// Its elements by storage.
    pub items: &'a ItemList<Cell>,
}
