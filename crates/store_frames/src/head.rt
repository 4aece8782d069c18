//! What a call looks at of a function.

use mql_meaning::VarType;

/// What a call looks at of a function: all but its name, its result and its body.
#[derive(Clone, Copy)]
pub struct Head<'a> {
    /// The class or structure on whose object it works; none where it works on none.
    pub class: Option<u32>,
    /// Whether it is a constructor or the destructor of its class.
    pub makes: bool,
    /// Which parameters are by reference. Parameters are the first locals.
    pub lent: &'a [bool],
    /// The types of its locals by number.
    pub locals: &'a [VarType],
}
