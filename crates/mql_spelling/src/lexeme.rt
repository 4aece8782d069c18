//! What a piece of text may be, and where in the text's lines it stands.

use crate::sign::Sign;

/// The texts between quotes.
#[derive(Clone, Copy, Debug, PartialEq, Eq)]
pub enum Quote {
    /// `"..."`
    Str,
    /// `'...'`
    Char,
    /// `D'...'`
    Date,
    /// `C'...'`
    Color,
    /// `"..."` behind `#include`
    File,
    /// `<...>` behind `#include`
    Library,
}

/// What a piece of text is.
#[derive(Clone, Copy, Debug, PartialEq, Eq)]
pub enum Lexeme {
    /// A blank, a comment, a line end outside directives, or a line end that `\` continues.
    Blank,
    OpenComment,
    Name,
    Decimal,
    Hexadecimal,
    Double,
    Quoted(Quote),
    OpenString,
    Sign(Sign),
    /// The end of a directive's line.
    LineEnd,
}

/// Where a piece stands: outside directives, directly behind `#`, directly behind `#include`, or elsewhere in
/// a directive.
#[derive(Clone, Copy, Debug, PartialEq, Eq)]
pub enum Mode {
    Plain,
    Hash,
    Include,
    Directive,
}
