//! Types of variables and of operands.
use fx8::{IntKind, ItemList};

/// A type that is no array (MQL5 Reference, Language Basics, Data Types). Classes are named by their numbers.
#[derive(Clone, Copy)]
pub enum Base {
    /// An integer type, `bool`, `datetime`, `color`, or an enumeration, which is an `int`.
    Number(IntKind),
    /// `double`
    Double,
    /// `string`
    String,
    /// A pointer to an object of a class.
    Pointer(u32),
    /// A structure.
    Structure(u32),
    /// An object of a class.
    Object(u32),
}

/// The type of a variable: what stands in it, and its dimensions from the first.
#[derive(Drop)]
pub struct VarType {
    /// What it holds, or what its elements are.
    pub base: Base,
    /// The number of elements of each dimension, 0 for one whose size changes; none where it is no array.
    pub dimensions: ItemList<u32>,
}

/// The type in which an operator works.
#[derive(Clone, Copy)]
pub enum Sort {
    /// An integer kind.
    Number(IntKind),
    /// `double`
    Double,
    /// `string`
    String,
    /// A pointer to an object.
    Pointer,
}
