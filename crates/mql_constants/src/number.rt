//! Operators on constant numbers.
ghost use Rattle.std.specs.Prelude.{◌≡◌, ◌||◌};
ghost use Rattle.mql_constants.specs.Numbers as numbers;

use fx8::{Fix8, FixFault, IntKind, IntOperator, int_op, wrap};
use natives::{ConstantValue, SimpleType};

/// Kinds of 8 and 16 bits and `bool` are taken as `int`.
fn promoted(kind: IntKind) -> IntKind
    ensures { result ≡ numbers.promoted kind }
{
    match kind {
        IntKind::Bool
        | IntKind::Char
        | IntKind::Uchar
        | IntKind::Short
        | IntKind::Ushort
        | IntKind::Int => IntKind::Int,
        IntKind::Uint => IntKind::Uint,
        IntKind::Long => IntKind::Long,
        IntKind::Ulong => IntKind::Ulong,
        IntKind::Datetime => IntKind::Datetime,
        IntKind::Color => IntKind::Color,
    }
}

fn of_width(kind: IntKind) -> IntKind
    ensures { result ≡ numbers.of_width kind }
{
    if kind.width() <= 32 {
        IntKind::Int
    } else {
        IntKind::Long
    }
}

fn signed_kind(j: IntKind, k: IntKind) -> IntKind
    ensures { result ≡ numbers.signed_kind j k }
{
    match j {
        IntKind::Color => match k {
            IntKind::Color => IntKind::Color,
            _ => IntKind::Int,
        },
        IntKind::Datetime => match k {
            IntKind::Datetime => IntKind::Datetime,
            _ => IntKind::Long,
        },
        _ => of_width(j),
    }
}

fn wider_kind(j: IntKind, k: IntKind) -> IntKind
    ensures { result ≡ numbers.wider_kind j k }
{
    if j.width() < k.width() {
        k
    } else if k.width() < j.width() {
        j
    } else if !j.is_signed() {
        j
    } else if !k.is_signed() {
        k
    } else {
        signed_kind(j, k)
    }
}

/// The kind in which two numbers of kinds are computed (MQL5 Reference, Typecasting).
#[tactic(auto, unfolding(crate::specs::Numbers::common_kind))]
pub fn common_kind(j: IntKind, k: IntKind) -> IntKind
    ensures { result ≡ numbers.common_kind j k }
{
    wider_kind(promoted(j), promoted(k))
}

fn common_type(a: &ConstantValue, b: &ConstantValue) -> SimpleType
    ensures { result ≡ numbers.common_type a.now b.now }
{
    match a {
        ConstantValue::Integer(j, _) => match b {
            ConstantValue::Integer(k, _) => SimpleType::Integer(common_kind(*j, *k)),
            ConstantValue::Double(_) => SimpleType::Double,
        },
        ConstantValue::Double(_) => SimpleType::Double,
    }
}

/// A truth as a constant.
pub(crate) fn bool_of(holds: bool) -> ConstantValue
    ensures { result ≡ numbers.bool holds }
{
    ConstantValue::Integer(IntKind::Bool, if holds { 1 } else { 0 })
}

fn real(x: Result<Fix8, FixFault>) -> Option<ConstantValue>
    ensures { result ≡ numbers.real x }
{
    match x {
        Ok(x) => Some(ConstantValue::Double(x)),
        Err(_) => None,
    }
}

fn whole(kind: IntKind, x: Result<i128, FixFault>) -> Option<ConstantValue>
    ensures { result ≡ numbers.whole kind x }
{
    match x {
        Ok(x) => Some(ConstantValue::Integer(kind, x)),
        Err(_) => None,
    }
}

/// The whole number of a double, toward zero.
fn whole_number(x: Fix8) -> i128
    ensures { result ≡ numbers.whole_number x }
{
    x.whole() as i128
}

/// A constant taken into a simple type; none where there is no such double, or the type is `string`.
pub fn converted(of: SimpleType, a: ConstantValue) -> Option<ConstantValue>
    ensures { result ≡ numbers.converted of a }
{
    match of {
        SimpleType::Integer(k) => match a {
            ConstantValue::Integer(_, x) => Some(ConstantValue::Integer(k, wrap(k, x))),
            ConstantValue::Double(x) => {
                Some(ConstantValue::Integer(k, wrap(k, whole_number(x))))
            }
        },
        SimpleType::Double => match a {
            ConstantValue::Integer(_, x) => real(Fix8::of_whole(x)),
            ConstantValue::Double(x) => Some(ConstantValue::Double(x)),
        },
        SimpleType::String => None,
    }
}

/// Whether a constant holds as a condition.
pub(crate) fn holds(a: ConstantValue) -> bool
    ensures { result ≡ numbers.holds a }
{
    match a {
        ConstantValue::Integer(_, x) => x != 0,
        ConstantValue::Double(x) => whole_number(x) != 0,
    }
}

fn result_kind(operator: IntOperator, kind: IntKind) -> IntKind
    ensures { result ≡ numbers.result_kind operator kind }
{
    match operator {
        IntOperator::Less
        | IntOperator::LessOrEqual
        | IntOperator::Greater
        | IntOperator::GreaterOrEqual
        | IntOperator::Equal
        | IntOperator::NotEqual => IntKind::Bool,
        _ => kind,
    }
}

#[tactic(auto, unfolding(crate::specs::Numbers::on_integers))]
fn on_integers(operator: IntOperator, kind: IntKind, x: i128, y: i128) -> Option<ConstantValue>
    ensures { result ≡ numbers.on_integers operator kind x y }
{
    let computed = int_op(operator, kind, wrap(kind, x), wrap(kind, y));
    whole(result_kind(operator, kind), computed)
}

#[tactic(auto, unfolding(crate::specs::Numbers::on_doubles))]
fn on_doubles(operator: IntOperator, x: Fix8, y: Fix8) -> Option<ConstantValue>
    ensures { result ≡ numbers.on_doubles operator x y }
{
    match operator {
        IntOperator::Add => real(x.add(y)),
        IntOperator::Subtract => real(x.sub(y)),
        IntOperator::Multiply => real(x.mul(y)),
        IntOperator::Divide => real(x.div(y)),
        IntOperator::Less => Some(bool_of(x.units() < y.units())),
        IntOperator::LessOrEqual => Some(bool_of(x.units() <= y.units())),
        IntOperator::Greater => Some(bool_of(y.units() < x.units())),
        IntOperator::GreaterOrEqual => Some(bool_of(y.units() <= x.units())),
        IntOperator::Equal => Some(bool_of(x.units() == y.units())),
        IntOperator::NotEqual => Some(bool_of(x.units() != y.units())),
        IntOperator::Remainder
        | IntOperator::ShiftLeft
        | IntOperator::ShiftRight
        | IntOperator::BitAnd
        | IntOperator::BitOr
        | IntOperator::BitXor => None,
    }
}

fn on_like(
    operator: IntOperator,
    of: SimpleType,
    a: ConstantValue,
    b: ConstantValue,
) -> Option<ConstantValue>
    ensures { result ≡ numbers.on_like operator of a b }
{
    match of {
        SimpleType::Integer(kind) => match a {
            ConstantValue::Integer(_, x) => match b {
                ConstantValue::Integer(_, y) => on_integers(operator, kind, x, y),
                ConstantValue::Double(_) => None,
            },
            ConstantValue::Double(_) => None,
        },
        SimpleType::Double => match a {
            ConstantValue::Double(x) => match b {
                ConstantValue::Double(y) => on_doubles(operator, x, y),
                ConstantValue::Integer(..) => None,
            },
            ConstantValue::Integer(..) => None,
        },
        SimpleType::String => None,
    }
}

fn on_converted(
    operator: IntOperator,
    of: SimpleType,
    a: Option<ConstantValue>,
    b: Option<ConstantValue>,
) -> Option<ConstantValue>
    ensures { result ≡ numbers.on_converted operator of a b }
{
    match a {
        None => None,
        Some(a) => match b {
            None => None,
            Some(b) => on_like(operator, of, a, b),
        },
    }
}

/// What an operator gives of two constants, in their common type.
#[tactic(auto, unfolding(crate::specs::Numbers::binary))]
pub(crate) fn binary(
    operator: IntOperator,
    a: ConstantValue,
    b: ConstantValue,
) -> Option<ConstantValue>
    ensures { result ≡ numbers.binary operator a b }
{
    let of = common_type(&a, &b);
    on_converted(operator, of, converted(of, a), converted(of, b))
}

#[tactic(auto, unfolding(crate::specs::Numbers::negative))]
pub(crate) fn negative(a: ConstantValue) -> Option<ConstantValue>
    ensures { result ≡ numbers.negative a }
{
    match a {
        ConstantValue::Integer(kind, x) => on_integers(IntOperator::Subtract, promoted(kind), 0, x),
        ConstantValue::Double(x) => real(Fix8::of_units(0).sub(x)),
    }
}

#[tactic(auto, unfolding(crate::specs::Numbers::complement))]
pub(crate) fn complement(a: ConstantValue) -> Option<ConstantValue>
    ensures { result ≡ numbers.complement a }
{
    match a {
        ConstantValue::Integer(kind, x) => {
            on_integers(IntOperator::Subtract, promoted(kind), -1, x)
        }
        ConstantValue::Double(_) => None,
    }
}

/// What `+` before a constant gives.
#[tactic(auto, unfolding(crate::specs::Numbers::same_number))]
pub(crate) fn same_number(a: ConstantValue) -> ConstantValue
    ensures { result ≡ numbers.same_number a }
{
    match a {
        ConstantValue::Integer(kind, x) => {
            let kind = promoted(kind);
            ConstantValue::Integer(kind, wrap(kind, x))
        }
        ConstantValue::Double(x) => ConstantValue::Double(x),
    }
}

/// What `test ? a : b` gives, of the common type of both.
#[tactic(auto, unfolding(crate::specs::Numbers::chosen))]
pub(crate) fn chosen(
    test: ConstantValue,
    a: ConstantValue,
    b: ConstantValue,
) -> Option<ConstantValue>
    ensures { result ≡ numbers.chosen test a b }
{
    let of = common_type(&a, &b);
    if holds(test) {
        converted(of, a)
    } else {
        converted(of, b)
    }
}
