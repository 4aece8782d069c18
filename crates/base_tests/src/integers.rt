//! Operators of integers at the limits, and numbers taken into kinds.

use fx8::{IntKind, IntOperator, int_op, wrap};
use std::process::Abort;

/// What an operator gives, `None` for a division by 0.
struct Row(IntOperator, IntKind, i128, i128, Option<i128>);

const ROWS: [Row; 14] = [
    Row(
        IntOperator::Add,
        IntKind::Int,
        2147483647,
        1,
        Some(-2147483648),
    ),
    Row(IntOperator::Subtract, IntKind::Uint, 0, 1, Some(4294967295)),
    Row(
        IntOperator::Multiply,
        IntKind::Ulong,
        18446744073709551615,
        18446744073709551615,
        Some(1),
    ),
    Row(
        IntOperator::Multiply,
        IntKind::Long,
        4294967296,
        4294967296,
        Some(0),
    ),
    Row(IntOperator::Divide, IntKind::Int, -7, 2, Some(-3)),
    Row(IntOperator::Remainder, IntKind::Int, -7, 2, Some(-1)),
    Row(
        IntOperator::Divide,
        IntKind::Int,
        -2147483648,
        -1,
        Some(-2147483648),
    ),
    Row(
        IntOperator::Remainder,
        IntKind::Int,
        -2147483648,
        -1,
        Some(0),
    ),
    Row(IntOperator::Divide, IntKind::Long, 1, 0, None),
    Row(IntOperator::Remainder, IntKind::Long, 1, 0, None),
    Row(IntOperator::ShiftLeft, IntKind::Int, 1, 33, Some(2)),
    Row(IntOperator::ShiftRight, IntKind::Char, -128, 3, Some(-16)),
    Row(IntOperator::BitXor, IntKind::Short, -1, 1, Some(-2)),
    Row(IntOperator::Less, IntKind::Long, -1, 0, Some(1)),
];

fn holds(rt: &impl Abort, row: &Row) {
    let Row(operator, kind, x, y, answer) = *row;
    assert_eq!(rt; wrap(kind, x), x);
    assert_eq!(rt; wrap(kind, y), y);
    assert_eq!(rt; int_op(operator, kind, x, y).ok(), answer);
}

#[test]
fn arithmetic_at_the_limits(rt: HostRuntime) {
    for row in &ROWS {
        holds(&rt, row);
    }
}

#[test]
fn numbers_taken_into_kinds(rt: HostRuntime) {
    assert_eq!(rt; wrap(IntKind::Char, 200), -56);
    assert_eq!(rt; wrap(IntKind::Bool, 256), 1);
    assert_eq!(rt; wrap(IntKind::Ulong, -1), 18446744073709551615);
    assert_eq!(rt; wrap(IntKind::Color, i128::MAX), -1);
}
