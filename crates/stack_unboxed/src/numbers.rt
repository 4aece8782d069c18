//! Numbers of 64 bits.
ghost use Rattle.std.specs.Prelude.{◌≡◌, ◌<ℤ◌, pos, ◌+ℤ◌, ◌-ℤ◌, ◌*ℤ◌, int_lt, int_le, int_rem};
ghost use Rattle.fx8.specs.Integers.{InRange, is_zero, truth, wrapped};
ghost use Rattle.mql_meaning.specs.Operators as operators;
ghost use Rattle.stack_unboxed.specs.Unboxed.{Computes, Fits, Is};

use fx8::{IntKind, IntOperator, int_op, wrap};

/// A number, where it fits 64 bits with a sign.
#[inline(always)]
pub(crate) fn narrowed(number: i128) -> Option<i64>
    ensures { Is result number }
{
    if number < -0x8000_0000_0000_0000 {
        return None;
    }
    if number > 0x7FFF_FFFF_FFFF_FFFF {
        return None;
    }
    Some(number as i64)
}

/// Whether a number is known to be in the range of a kind.
#[inline(always)]
fn is_in(kind: IntKind, x: i64) -> bool
    ensures { Fits result kind x }
{
    match kind {
        IntKind::Bool => x >= 0 && x <= 1,
        IntKind::Char => x >= -0x80 && x <= 0x7F,
        IntKind::Uchar => x >= 0 && x <= 0xFF,
        IntKind::Short => x >= -0x8000 && x <= 0x7FFF,
        IntKind::Ushort => x >= 0 && x <= 0xFFFF,
        IntKind::Int => x >= -0x8000_0000 && x <= 0x7FFF_FFFF,
        IntKind::Uint => x >= 0 && x <= 0xFFFF_FFFF,
        IntKind::Long => true,
        IntKind::Ulong => x >= 0,
        IntKind::Datetime => true,
        IntKind::Color => x >= -0x8000_0000 && x <= 0x7FFF_FFFF,
    }
}

/// A number taken into a kind, where it then fits 64 bits with a sign.
#[inline(always)]
#[tactic(auto, using(crate::proofs::Ranges::same_in))]
pub(crate) fn fitted(kind: IntKind, x: i128) -> Option<i64>
    ensures { Is result (wrapped kind x) }
{
    let Some(number) = narrowed(x) else {
        return narrowed(wrap(kind, x));
    };
    if is_in(kind, number) {
        return Some(number);
    }
    narrowed(wrap(kind, x))
}

#[inline(always)]
fn sum(x: i64, y: i64) -> i128
    ensures { result ≡ x +ℤ y }
{
    x as i128 + y as i128
}

#[inline(always)]
fn difference(x: i64, y: i64) -> i128
    ensures { result ≡ x -ℤ y }
{
    x as i128 - y as i128
}

#[inline(always)]
fn product(x: i64, y: i64) -> i128
    ensures { result ≡ x *ℤ y }
{
    x as i128 * y as i128
}

/// What is left over from the quotient, with the sign of the left side.
#[inline(always)]
fn remainder(x: i64, y: i64) -> i128
    requires { pos 0 <ℤ y }
    ensures { result ≡ int_rem x y }
{
    (x % y) as i128
}

/// What a comparison gives.
#[inline(always)]
#[tactic(auto, using(crate::proofs::Ranges::truth_in))]
fn told(kind: IntKind, holds: bool) -> Option<i64>
    ensures { Is result (wrapped kind (truth holds)) }
{
    if holds { Some(1) } else { Some(0) }
}

#[inline(always)]
fn less(x: i64, y: i64) -> bool
    ensures { result ≡ int_lt x y }
{
    x < y
}

#[inline(always)]
fn at_most(x: i64, y: i64) -> bool
    ensures { result ≡ int_le x y }
{
    x <= y
}

#[inline(always)]
fn equal(x: i64, y: i64) -> bool
    ensures { result ≡ is_zero (x -ℤ y) }
{
    difference(x, y) == 0
}

/// What any operator gives.
fn general(operator: IntOperator, kind: IntKind, x: i64, y: i64) -> Option<i64>
    requires left { InRange kind x }
    requires right { InRange kind y }
    ensures { Computes result operator kind x y }
{
    match int_op(operator, kind, x as i128, y as i128) {
        Ok(number) => narrowed(number),
        Err(_) => None,
    }
}

/// What `%` gives.
#[inline(always)]
#[tactic(auto, using(crate::proofs::Ranges::left_over))]
fn left_over(kind: IntKind, x: i64, y: i64) -> Option<i64>
    requires left { InRange kind x }
    requires right { InRange kind y }
    ensures { Computes result IntOperator.Remainder kind x y }
{
    if y <= 0 {
        return general(IntOperator::Remainder, kind, x, y);
    }
    fitted(kind, remainder(x, y))
}

/// What an operator gives at a kind, whose numbers `x` and `y` are, where it is known and fits 64 bits.
#[inline(always)]
#[tactic(auto, using(crate::proofs::Ranges::added, crate::proofs::Ranges::subtracted, crate::proofs::Ranges::multiplied, crate::proofs::Ranges::less, crate::proofs::Ranges::at_most, crate::proofs::Ranges::greater, crate::proofs::Ranges::at_least, crate::proofs::Ranges::equal, crate::proofs::Ranges::other))]
fn in_kind(operator: IntOperator, kind: IntKind, x: i64, y: i64) -> Option<i64>
    requires left { InRange kind x }
    requires right { InRange kind y }
    ensures { Computes result operator kind x y }
{
    match operator {
        IntOperator::Add => fitted(kind, sum(x, y)),
        IntOperator::Subtract => fitted(kind, difference(x, y)),
        IntOperator::Multiply => fitted(kind, product(x, y)),
        IntOperator::Remainder => left_over(kind, x, y),
        IntOperator::Less => told(kind, less(x, y)),
        IntOperator::LessOrEqual => told(kind, at_most(x, y)),
        IntOperator::Greater => told(kind, less(y, x)),
        IntOperator::GreaterOrEqual => told(kind, at_most(y, x)),
        IntOperator::Equal => told(kind, equal(x, y)),
        IntOperator::NotEqual => told(kind, !equal(x, y)),
        IntOperator::Divide => general(operator, kind, x, y),
        IntOperator::ShiftLeft => general(operator, kind, x, y),
        IntOperator::ShiftRight => general(operator, kind, x, y),
        IntOperator::BitAnd => general(operator, kind, x, y),
        IntOperator::BitOr => general(operator, kind, x, y),
        IntOperator::BitXor => general(operator, kind, x, y),
    }
}

/// What an operator gives of two numbers, which are taken into its kind, where it is known and fits 64 bits.
#[inline(always)]
#[tactic(auto, using(crate::proofs::Ranges::taken_in))]
pub(crate) fn operated(operator: IntOperator, kind: IntKind, x: i64, y: i64) -> Option<i64>
    ensures { Computes result operator kind (wrapped kind x) (wrapped kind y) }
{
    if !is_in(kind, x) {
        return None;
    }
    if !is_in(kind, y) {
        return None;
    }
    in_kind(operator, kind, x, y)
}

/// The kind of what an operator gives: a comparison gives a `bool`, another operator a number of its kind.
#[inline(always)]
pub(crate) fn kind_of_result(operator: IntOperator, kind: IntKind) -> IntKind
    ensures { result ≡ operators.kind_of_result operator kind }
{
    match operator {
        IntOperator::Less
        | IntOperator::LessOrEqual
        | IntOperator::Greater
        | IntOperator::GreaterOrEqual
        | IntOperator::Equal
        | IntOperator::NotEqual => IntKind::Bool,
        IntOperator::Add
        | IntOperator::Subtract
        | IntOperator::Multiply
        | IntOperator::Divide
        | IntOperator::Remainder
        | IntOperator::ShiftLeft
        | IntOperator::ShiftRight
        | IntOperator::BitAnd
        | IntOperator::BitOr
        | IntOperator::BitXor => kind,
    }
}
