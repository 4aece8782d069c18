//! Conversions between types.
ghost use Rattle.std.specs.Prelude.{◌≡◌};
ghost use Rattle.fx8.specs.Integers.{is_bool};
ghost use Rattle.mql_types.specs.Conversions.{promoted, plain_signed, wider_kind, common_kind, number, is_number, wider, wider_of, common_number, is_string, is_null, is_simple, fits, holds_kind, holds, number_cost, cost};

use crate::types::{Base, same, same_kind};
use fx8::IntKind;
use natives::SimpleType;

/// The kind in which operators work on numbers of a kind: those of 8 and 16 bits are taken as `int`.
pub fn promoted(k: IntKind) -> IntKind
    ensures { result ≡ promoted k }
{
    if k.width() < 32 { IntKind::Int } else { k }
}

fn plain_signed(k: IntKind) -> IntKind
    ensures { result ≡ plain_signed k }
{
    if k.width() < 64 {
        IntKind::Int
    } else {
        IntKind::Long
    }
}

fn wider_kind(j: IntKind, k: IntKind) -> IntKind
    ensures { result ≡ wider_kind j k }
{
    if j.width() < k.width() {
        return k;
    }
    if k.width() < j.width() {
        return j;
    }
    if !j.is_signed() {
        return j;
    }
    if !k.is_signed() {
        return k;
    }
    if same_kind(j, k) {
        return j;
    }
    plain_signed(j)
}

/// The common kind of numbers of two kinds.
pub fn common_kind(j: IntKind, k: IntKind) -> IntKind
    ensures { result ≡ common_kind j k }
{
    wider_kind(promoted(j), promoted(k))
}

/// The type of a number; an enumeration is an `int`.
pub fn number(a: Base) -> Option<SimpleType>
    ensures { result ≡ number a }
{
    match a {
        Base::Simple(SimpleType::Integer(k)) => Some(SimpleType::Integer(k)),
        Base::Simple(SimpleType::Double) => Some(SimpleType::Double),
        Base::Enumeration(_) => Some(SimpleType::Integer(IntKind::Int)),
        _ => None,
    }
}

/// Whether values of a type are numbers.
pub fn is_number(a: Base) -> bool
    ensures { result ≡ is_number a }
{
    number(a).is_some()
}

/// The wider of two types of numbers.
pub fn wider(s: SimpleType, t: SimpleType) -> SimpleType
    ensures { result ≡ wider s t }
{
    match s {
        SimpleType::Integer(j) => match t {
            SimpleType::Integer(k) => SimpleType::Integer(common_kind(j, k)),
            _ => SimpleType::Double,
        },
        _ => SimpleType::Double,
    }
}

fn wider_of(s: Option<SimpleType>, t: Option<SimpleType>) -> Option<SimpleType>
    ensures { result ≡ wider_of s t }
{
    match s {
        Some(x) => match t {
            Some(y) => Some(wider(x, y)),
            None => None,
        },
        None => None,
    }
}

/// The common type of two numbers.
pub fn common_number(a: Base, b: Base) -> Option<SimpleType>
    ensures { result ≡ common_number a b }
{
    wider_of(number(a), number(b))
}

pub(crate) fn is_string(a: Base) -> bool
    ensures { result ≡ is_string a }
{
    match a {
        Base::Simple(SimpleType::String) => true,
        _ => false,
    }
}

pub(crate) fn is_null(a: Base) -> bool
    ensures { result ≡ is_null a }
{
    match a {
        Base::Null => true,
        _ => false,
    }
}

fn is_simple(a: Base) -> bool
    ensures { result ≡ is_simple a }
{
    is_number(a) || is_string(a)
}

/// Whether a value of the first type is converted where one of the second is asked for.
pub fn fits(a: Base, b: Base) -> bool
    ensures { result ≡ fits a b }
{
    same(a, b) || ((is_simple(a) && is_simple(b)) || (is_null(a) && is_string(b)))
}

fn is_bool(k: IntKind) -> bool
    ensures { result ≡ is_bool k }
{
    match k {
        IntKind::Bool => true,
        _ => false,
    }
}

/// Whether the first kind has all values of the second.
pub fn holds_kind(k: IntKind, j: IntKind) -> bool
    ensures { result ≡ holds_kind k j }
{
    if is_bool(k) {
        return is_bool(j);
    }
    if is_bool(j) {
        return true;
    }
    if j.is_signed() {
        return k.is_signed() && j.width() <= k.width();
    }
    if k.is_signed() {
        return j.width() < k.width();
    }
    j.width() <= k.width()
}

/// Whether the first type of numbers has all values of the second.
pub fn holds(t: SimpleType, s: SimpleType) -> bool
    ensures { result ≡ holds t s }
{
    match t {
        SimpleType::Integer(k) => match s {
            SimpleType::Integer(j) => holds_kind(k, j),
            _ => false,
        },
        SimpleType::Double => match s {
            SimpleType::Integer(j) => j.width() <= 32,
            _ => false,
        },
        SimpleType::String => false,
    }
}

fn number_cost(s: Option<SimpleType>, t: Option<SimpleType>) -> u8
    ensures { result ≡ number_cost s t }
{
    match s {
        Some(x) => match t {
            Some(y) => if holds(y, x) { 1 } else { 2 },
            None => 3,
        },
        None => 3,
    }
}

/// What it costs to hand a value of the first type to a parameter of the second, where it fits: 0 for the same
/// type, 1 to a kind that has all its values, 2 to another number, 3 to or from a string.
pub fn cost(a: Base, b: Base) -> u8
    ensures { result ≡ cost a b }
{
    if same(a, b) {
        return 0;
    }
    number_cost(number(a), number(b))
}
