//! Operators as data: what is done to operands.
use crate::types::Sort;
use fx8::IntOperator;

/// An operator on one value (MQL5 Reference, Language Basics, Operations and Expressions).
#[derive(Clone, Copy)]
pub enum UnaryOperator {
    /// `-x`
    Minus,
    /// `~x`
    Complement,
    /// `!x`
    Not,
}

/// The operators `++` and `--`, before and after their place (MQL5 Reference, Arithmetical Operations).
#[derive(Clone, Copy)]
pub enum Bump {
    /// `++x`
    MoreFirst,
    /// `--x`
    LessFirst,
    /// `x++`
    MoreAfter,
    /// `x--`
    LessAfter,
}

/// What is done to operands. An operand is a value or a place, and so is what an operator gives.
#[derive(Clone, Copy)]
pub enum Operator {
    /// The place of a local of the call in force. A parameter by reference is the place that was lent.
    Local(u32),
    /// The place of a global or static variable.
    Global(u32),
    /// The place of the object or structure whose method runs.
    This,
    /// The place of a structure or an object: the place of its field of this number.
    Field(u32),
    /// The place of an array and a number: the place of an element.
    Index,
    /// A pointer: the place of its object.
    Object,
    /// A place: its value.
    Read,
    /// The place of an object, or of a variable that holds one: the pointer to it.
    PointerOf,
    /// A value and a place, which gets the value: the value.
    Keep,
    /// A value and a place, which gets its old value with the operator and the value, both taken into the
    /// sort, and the result taken back: its new value.
    Update(IntOperator, Sort),
    /// A place, which gets 1 more or less: its new value, or the old one.
    Bump(Bump),
    /// A value of the sort.
    Unary(UnaryOperator, Sort),
    /// Two values of the sort.
    Binary(IntOperator, Sort),
    /// A value, taken into the sort.
    Convert(Sort),
    /// A pointer, taken as one to an object of the class or of a child. Where it points to another object it
    /// is an error where the cast is strict, else `NULL`.
    Cast(u32, bool),
}
