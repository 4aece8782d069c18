//! What makes the forms of declarations.

use mql_names::Meanings;
use mql_sizes::Values;
use std::alloc::Global;

/// Makes the forms of what a program declares: it knows what names mean, and the values of members of
/// enumerations.
#[derive(Drop)]
pub(crate) struct Maker<'a, 'n, 'v> {
    pub alloc: Global,
    pub names: &'a Meanings<'n>,
    pub values: &'a Values<'v>,
}

/// Finds the static variables of a function.
#[derive(Drop)]
pub(crate) struct Finder<'a, 'b, 'n, 'v> {
    pub maker: &'a Maker<'b, 'n, 'v>,
    /// The place of the function's item.
    pub item: usize,
    /// The function's key.
    pub key: &'a [u16],
}
