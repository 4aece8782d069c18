//! What a variable holds.
use fx8::ItemList;
use mql_mean::Value;

/// What a variable, a field or an element holds: a value, with what its type and its flags say of it.
#[derive(Drop)]
pub enum Cell {
    /// A number, a string or a pointer. A variable of object type holds the serial of its object.
    One(Value),
    /// An array: whether its size changes, whether it is indexed from its end, one element as it begins, and
    /// its elements by storage.
    Array(bool, bool, ItemList<Cell>, ItemList<Cell>),
    /// A structure: its fields.
    Structure(ItemList<Cell>),
}
