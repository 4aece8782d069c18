//! Pieces of formats.

use crate::conversion::Conversion;
use mql_mean::Value;

/// What a format has at one place.
#[derive(Clone, Copy)]
pub enum Piece<'a> {
    /// A unit that stands as it is.
    Unit(u16),
    /// A percent sign in a width.
    Percent(Conversion),
    /// A conversion without an argument, which is empty.
    Nothing,
    /// A conversion and its argument.
    Argument(Conversion, &'a Value),
}

/// A piece of a format, and what is left.
#[derive(Clone, Copy)]
pub struct Step<'a> {
    /// The piece.
    pub piece: Piece<'a>,
    /// The text behind it.
    pub rest: &'a [u16],
    /// The arguments that are left.
    pub values: &'a [Value],
}
