//! What stands at a place, and the kinds of operators, statements and classes.

/// Where something of a program stands: at a node, which it is or which it is a part of.
#[derive(Clone, Copy, Debug, PartialEq, Eq)]
pub struct Place {
    /// The node's number, from 0 on in the order in which nodes begin, a node before its parts.
    pub at: u32,
    /// The place of the node's first token among the tokens, from 0 on. It tells the file and the line.
    pub first: u32,
}

/// An operator before a value.
#[derive(Clone, Copy, Debug, PartialEq, Eq)]
pub enum UnaryOperator {
    /// `!`
    Not,
    /// `~`
    Complement,
    /// `-`
    Minus,
    /// `+`
    Plus,
    /// `++`
    Increment,
    /// `--`
    Decrement,
    /// `&`: the pointer to an object.
    Address,
    /// `*`: the object of a pointer.
    Object,
}

/// An operator behind a value.
#[derive(Clone, Copy, Debug, PartialEq, Eq)]
pub enum Step {
    /// `++`
    Increment,
    /// `--`
    Decrement,
}

/// An operator between two values.
#[derive(Clone, Copy, Debug, PartialEq, Eq)]
pub enum BinaryOperator {
    /// `*`
    Multiply,
    /// `/`
    Divide,
    /// `%`
    Remainder,
    /// `+`
    Add,
    /// `-`
    Subtract,
    /// `<<`
    ShiftLeft,
    /// `>>`
    ShiftRight,
    /// `<`
    Less,
    /// `<=`
    LessOrEqual,
    /// `>`
    Greater,
    /// `>=`
    GreaterOrEqual,
    /// `==`
    Equal,
    /// `!=`
    NotEqual,
    /// `&`
    BitAnd,
    /// `^`
    BitXor,
    /// `|`
    BitOr,
    /// `&&`
    And,
    /// `||`
    Or,
}

/// What a statement does with its variables, values and statements.
#[derive(Clone, Copy, Debug, PartialEq, Eq)]
pub enum StatementKind {
    /// Statements in braces.
    Block,
    /// `;` alone.
    Empty,
    /// The declaration of its variables.
    Declaration,
    /// Its values, one after another, each for what it does.
    Evaluation,
    /// `if`: the test; the statement, and the one behind `else` if there is one.
    If,
    /// `while`: the test; the statement.
    While,
    /// `do`: the test; the statement.
    Do,
    /// `for`: the test if there is one, then the values of the step; a declaration or an evaluation, which is
    /// what it begins with, and the statement.
    For { tested: bool },
    /// `switch`: the value; labels and statements, as they stand in the braces.
    Switch,
    /// `case`: the label.
    Case,
    /// `default`.
    Default,
    /// `break`.
    Break,
    /// `continue`.
    Continue,
    /// `return`: the value if there is one.
    Return,
    /// `delete`: the value.
    Delete,
}

/// The word that begins a class.
#[derive(Clone, Copy, Debug, PartialEq, Eq)]
pub enum ClassKind {
    Class,
    Struct,
    Interface,
}

/// Where a member is accessible, or how a class takes its parent's.
#[derive(Clone, Copy, Debug, PartialEq, Eq)]
pub enum Access {
    Public,
    Protected,
    Private,
}
