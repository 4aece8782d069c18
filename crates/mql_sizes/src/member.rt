//! Members of enumerations.

use fx8::{ItemList, Text};
use mql_syntax::Place;

/// A member of an enumeration.
#[derive(Drop)]
pub struct EnumMember {
    pub name: Text,
    /// Its value; none where it is not a constant of `int`.
    pub value: Option<i32>,
}

/// An enumeration with its members in order.
#[derive(Drop)]
pub struct EnumMembers {
    pub place: Place,
    pub name: Text,
    pub members: ItemList<EnumMember>,
}

/// The value of a member.
#[derive(Clone, Copy, Debug, PartialEq, Eq)]
pub struct MemberValue {
    pub value: i32,
}
