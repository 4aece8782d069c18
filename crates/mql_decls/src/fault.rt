//! Why a program's declarations are refused.

use mql_names::Broken;

/// Why a program is refused, at the place of a node.
#[derive(Clone, Copy, Debug, PartialEq, Eq)]
pub enum Refusal {
    /// The node is not of the form of plain programs; it is the first such node in the order of tokens.
    NotPlain(Broken),
    /// The node breaks a rule of declarations.
    Rule(Broken),
}

/// Why there are no declarations of a program.
#[derive(Clone, Copy, Debug, PartialEq, Eq)]
pub enum DeclFault {
    /// The program is refused.
    Refused(Refusal),
    /// There was no memory.
    OutOfMemory,
}
