//! What names of a program stand for.

use fx8::{ItemList, Text};
use mql_meaning::Member;
use mql_typed::Standing;
use mql_types::DataType;

/// Where a variable stands.
#[derive(Clone, Copy, Debug, PartialEq, Eq)]
pub enum Storage {
    /// The local of this number in its function.
    Local(u32),
    /// The global or static variable of this number.
    Global(u32),
}

/// A variable as expressions see it.
#[derive(Drop)]
pub struct Known {
    pub name: Text,
    pub of: DataType,
    pub stands: Storage,
    /// Whether it is a variable, a constant or an input.
    pub standing: Standing,
}

/// A field of a structure.
#[derive(Drop)]
pub struct Field {
    pub name: Text,
    pub of: DataType,
    /// Whether it is accessible outside the structure.
    pub accessible: bool,
}

/// A structure with its fields.
#[derive(Drop)]
pub struct Layout {
    pub name: Text,
    pub fields: ItemList<Field>,
}

/// An enumeration with its members.
#[derive(Drop)]
pub struct Enumeration {
    pub name: Text,
    pub members: ItemList<Member>,
}
