//! Operators between values.
ghost use Rattle.std.specs.Prelude.{◌≡◌};
ghost use Rattle.mql_meaning.specs.Operators as meaning;
ghost use Rattle.mql_types.specs.Operators.{is_integral, is_add, is_equality, is_double, is_structure, simple_sort, number_sort, integral, are_texts, joined_sort, compared_sort, binary_sort, result_base, no_numbers, bits_of_double, compares_structures, promoted_sort, unary_sort, branches};

use crate::conversion::{common_number, fits, is_null, is_number, is_string, number, promoted};
use crate::types::{Base, same, sort_base};
use fx8::{IntKind, IntOperator};
use mql_meaning::Sort;
use natives::SimpleType;

/// Whether an operator compares.
pub fn compares(o: IntOperator) -> bool
    ensures { result ≡ meaning.compares o }
{
    match o {
        IntOperator::Less
        | IntOperator::LessOrEqual
        | IntOperator::Greater
        | IntOperator::GreaterOrEqual
        | IntOperator::Equal
        | IntOperator::NotEqual => true,
        _ => false,
    }
}

/// Whether an operator takes integers alone.
pub fn is_integral(o: IntOperator) -> bool
    ensures { result ≡ is_integral o }
{
    match o {
        IntOperator::Remainder
        | IntOperator::ShiftLeft
        | IntOperator::ShiftRight
        | IntOperator::BitAnd
        | IntOperator::BitOr
        | IntOperator::BitXor => true,
        _ => false,
    }
}

fn is_add(o: IntOperator) -> bool
    ensures { result ≡ is_add o }
{
    match o {
        IntOperator::Add => true,
        _ => false,
    }
}

fn is_equality(o: IntOperator) -> bool
    ensures { result ≡ is_equality o }
{
    match o {
        IntOperator::Equal | IntOperator::NotEqual => true,
        _ => false,
    }
}

fn is_double(a: Base) -> bool
    ensures { result ≡ is_double a }
{
    match a {
        Base::Simple(SimpleType::Double) => true,
        _ => false,
    }
}

/// Whether values of a type are structures.
pub fn is_structure(a: Base) -> bool
    ensures { result ≡ is_structure a }
{
    match a {
        Base::Structure(_) => true,
        _ => false,
    }
}

fn simple_sort(t: SimpleType) -> Sort
    ensures { result ≡ simple_sort t }
{
    match t {
        SimpleType::Integer(k) => Sort::Number(k),
        SimpleType::Double => Sort::Double,
        SimpleType::String => Sort::String,
    }
}

fn number_sort(a: Base, b: Base) -> Option<Sort>
    ensures { result ≡ number_sort a b }
{
    match common_number(a, b) {
        Some(t) => Some(simple_sort(t)),
        None => None,
    }
}

fn integral(s: Option<Sort>) -> Option<Sort>
    ensures { result ≡ integral s }
{
    match s {
        Some(Sort::Number(k)) => Some(Sort::Number(k)),
        _ => None,
    }
}

fn are_texts(a: Base, b: Base) -> bool
    ensures { result ≡ are_texts a b }
{
    (is_string(a) && fits(b, Base::Simple(SimpleType::String)))
        || (is_string(b) && fits(a, Base::Simple(SimpleType::String)))
}

fn joined_sort(a: Base, b: Base) -> Option<Sort>
    ensures { result ≡ joined_sort a b }
{
    if are_texts(a, b) {
        return Some(Sort::String);
    }
    number_sort(a, b)
}

fn compared_sort(o: IntOperator, a: Base, b: Base) -> Option<Sort>
    ensures { result ≡ compared_sort o a b }
{
    if is_equality(o) && (is_null(a) && is_null(b)) {
        return Some(Sort::Pointer);
    }
    joined_sort(a, b)
}

/// The sort in which an operator works on values of two types; none where a rule forbids it.
pub fn binary_sort(o: IntOperator, a: Base, b: Base) -> Option<Sort>
    ensures { result ≡ binary_sort o a b }
{
    if is_integral(o) {
        return integral(number_sort(a, b));
    }
    if is_add(o) {
        return joined_sort(a, b);
    }
    if compares(o) {
        return compared_sort(o, a, b);
    }
    number_sort(a, b)
}

/// The type of what an operator gives that works in a sort.
pub fn result_base(o: IntOperator, s: Sort) -> Base
    ensures { result ≡ result_base o s }
{
    if compares(o) {
        return Base::Simple(SimpleType::Integer(IntKind::Bool));
    }
    sort_base(s)
}

/// Whether an operand is no number, where `+` and comparisons take strings too.
pub fn no_numbers(o: IntOperator, a: Base, b: Base) -> bool
    ensures { result ≡ no_numbers o a b }
{
    if is_integral(o) {
        return !(is_number(a) && is_number(b));
    }
    binary_sort(o, a, b).is_none() && !compares_structures(o, a, b)
}

/// Whether an operator on integers has a `double`.
pub fn bits_of_double(o: IntOperator, a: Base, b: Base) -> bool
    ensures { result ≡ bits_of_double o a b }
{
    is_integral(o) && (is_double(a) || is_double(b))
}

/// Whether structures are compared.
pub fn compares_structures(o: IntOperator, a: Base, b: Base) -> bool
    ensures { result ≡ compares_structures o a b }
{
    compares(o) && (is_structure(a) || is_structure(b))
}

fn promoted_sort(t: SimpleType) -> Sort
    ensures { result ≡ promoted_sort t }
{
    match t {
        SimpleType::Integer(k) => Sort::Number(promoted(k)),
        _ => simple_sort(t),
    }
}

/// The sort in which `-`, `+` and `~` work on a value; none where it is no number.
pub fn unary_sort(a: Base) -> Option<Sort>
    ensures { result ≡ unary_sort a }
{
    match number(a) {
        Some(t) => Some(promoted_sort(t)),
        None => None,
    }
}

/// The common type of the branches of `?:`.
pub fn branches(a: Base, b: Base) -> Option<Base>
    ensures { result ≡ branches a b }
{
    if same(a, b) {
        return Some(a);
    }
    match joined_sort(a, b) {
        Some(s) => Some(sort_base(s)),
        None => None,
    }
}
