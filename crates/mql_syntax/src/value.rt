//! Types where they are written, and values.

use crate::kind::{BinaryOperator, Place, Step, UnaryOperator};
use fx8::{Fix8, IntKind, ItemList, Text};

/// A type where it is written: its name, which may be `void` or a simple type's, whether `*` stands behind
/// it, and the arguments of a template.
#[derive(Drop)]
pub enum TypeUse {
    Named {
        place: Place,
        name: Text,
        pointer: bool,
        args: ItemList<TypeUse>,
    },
}

/// What a value does with the types and the values that it is made of. Where nothing is said, it has none.
#[derive(Drop)]
pub enum Operation {
    /// A name: a variable, a function, a member of an enumeration, or a type that is called.
    Name(Text),
    /// An integer, a character, a date or a color, with its kind.
    Int { value: u64, kind: IntKind },
    /// A `double`.
    Double(Fix8),
    /// A string.
    Text(Text),
    /// `true` or `false`.
    Bool(bool),
    /// `NULL`.
    Null,
    /// `this`.
    This,
    /// A value in parentheses.
    Parentheses,
    /// An operator before a value.
    Unary(UnaryOperator),
    /// An operator behind a value.
    Postfix(Step),
    /// An operator between two values.
    Binary(BinaryOperator),
    /// `?:`: the test, the value where it holds, and the other.
    Conditional,
    /// `=`: what is assigned to, and the value.
    Assign,
    /// As `+=`: what is assigned to, and the right side of the operator.
    AssignWith(BinaryOperator),
    /// The array, and the index.
    Index,
    /// The member of a name: the value that has it.
    Member(Text),
    /// The member of a class: the names of both.
    Scope { class: Text, name: Text },
    /// What is called, and its arguments.
    Call,
    /// A template by its name: the types that are its arguments.
    Generic(Text),
    /// `new`: the type; the arguments of its constructor.
    New,
    /// `dynamic_cast`: the type; the value.
    DynamicCast,
    /// `T(x)`: the type; the value.
    Conversion,
    /// `(T)x`: the type; the value.
    Cast,
    /// Values in braces.
    Braces,
}

/// A value: what it does, and the types and the values that it does it with, as they stand in the text.
#[derive(Drop)]
pub enum Value {
    Node {
        place: Place,
        what: Operation,
        types: ItemList<TypeUse>,
        parts: ItemList<Value>,
    },
}
