//! Types.
ghost use Rattle.std.specs.Prelude.{◌≡◌};
ghost use Rattle.mql_types.specs.Types.{kind_number, same_kind, same_simple, same, same_type, sort_of, sort_base};

use crate::dimensions::Dimensions;
use fx8::IntKind;
use mql_meaning::Sort;
use natives::SimpleType;

/// A type that is no array (MQL5 Reference, Language Basics, Data Types).
#[derive(Clone, Copy, Debug, PartialEq, Eq)]
pub enum Base {
    /// A simple type.
    Simple(SimpleType),
    /// An enumeration of the source, by its number among them. Its values are of `int`.
    Enumeration(u32),
    /// A structure, by its number.
    Structure(u32),
    /// The type of `NULL`.
    Null,
}

/// A type: what it holds, and its dimensions.
#[derive(Clone, Copy, Debug, PartialEq, Eq)]
pub struct DataType {
    /// What it is, or what its elements are.
    pub base: Base,
    /// The dimensions of an array; none where it is no array.
    pub dimensions: Dimensions,
}

fn kind_number(kind: IntKind) -> u8
    ensures { result ≡ kind_number kind }
{
    match kind {
        IntKind::Bool => 0,
        IntKind::Char => 1,
        IntKind::Uchar => 2,
        IntKind::Short => 3,
        IntKind::Ushort => 4,
        IntKind::Int => 5,
        IntKind::Uint => 6,
        IntKind::Long => 7,
        IntKind::Ulong => 8,
        IntKind::Datetime => 9,
        IntKind::Color => 10,
    }
}

/// Whether two integer kinds are one.
pub fn same_kind(j: IntKind, k: IntKind) -> bool
    ensures { result ≡ same_kind j k }
{
    kind_number(j) == kind_number(k)
}

fn same_simple(s: SimpleType, t: SimpleType) -> bool
    ensures { result ≡ same_simple s t }
{
    match s {
        SimpleType::Integer(j) => match t {
            SimpleType::Integer(k) => same_kind(j, k),
            _ => false,
        },
        SimpleType::Double => match t {
            SimpleType::Double => true,
            _ => false,
        },
        SimpleType::String => match t {
            SimpleType::String => true,
            _ => false,
        },
    }
}

/// Whether two types that are no arrays are one.
pub fn same(a: Base, b: Base) -> bool
    ensures { result ≡ same a b }
{
    match a {
        Base::Simple(s) => match b {
            Base::Simple(t) => same_simple(s, t),
            _ => false,
        },
        Base::Enumeration(m) => match b {
            Base::Enumeration(n) => m == n,
            _ => false,
        },
        Base::Structure(m) => match b {
            Base::Structure(n) => m == n,
            _ => false,
        },
        Base::Null => match b {
            Base::Null => true,
            _ => false,
        },
    }
}

/// Whether a variable of the first type may be lent as one of the second: they are one but for the size of
/// the first dimension.
pub fn same_type(t: DataType, u: DataType) -> bool
    ensures { result ≡ same_type t u }
{
    same(t.base, u.base) && t.dimensions.alike(u.dimensions)
}

/// The type in which operators work on values of a type; none for structures.
pub fn sort_of(a: Base) -> Option<Sort>
    ensures { result ≡ sort_of a }
{
    match a {
        Base::Simple(SimpleType::Integer(k)) => Some(Sort::Number(k)),
        Base::Simple(SimpleType::Double) => Some(Sort::Double),
        Base::Simple(SimpleType::String) => Some(Sort::String),
        Base::Enumeration(_) => Some(Sort::Number(IntKind::Int)),
        Base::Structure(_) => None,
        Base::Null => Some(Sort::Pointer),
    }
}

/// The type of the values in which operators work.
pub fn sort_base(s: Sort) -> Base
    ensures { result ≡ sort_base s }
{
    match s {
        Sort::Number(k) => Base::Simple(SimpleType::Integer(k)),
        Sort::Double => Base::Simple(SimpleType::Double),
        Sort::String => Base::Simple(SimpleType::String),
        Sort::Pointer => Base::Null,
    }
}
