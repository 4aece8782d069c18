//! Operands that take no memory.

use fx8::IntKind;
use mql_meaning::Root;

/// A number of an integer kind.
#[derive(Clone, Copy)]
pub struct Number {
    pub kind: IntKind,
    pub number: i64,
}

/// An operand that takes no memory.
#[derive(Clone, Copy)]
pub enum Unboxed {
    /// A number.
    Number(Number),
    /// The place of a whole variable or object.
    Variable(Root),
}
