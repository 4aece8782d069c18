//! The rules that ask about operands: of changed places, operators, conditions, indices and branches.
ghost use Rattle.std.specs.Prelude.{◌≡◌, ◌||◌};
ghost use Rattle.mql_scope.specs.Contexts.{Context};
ghost use Rattle.mql_calls.specs.Nodes.{passes, ask, some_part, is_void, is_whole_array, no_place, is_constant, is_of_input};
ghost use Rattle.mql_types.specs.Operators.{no_numbers, bits_of_double, compares_structures, is_double};
ghost use Rattle.mql_expressions.specs.Rules.{base_at, operator_of, ask_base, ask_bases, is_no_number, no_fit, no_update, array_compared, no_condition, no_integer, no_common, input_changed, left_no_place, no_number, double_bits, structures_compared, condition_no_number, no_condition_at, void_used, index_no_array, index_no_integer, branches_differ};
ghost use Rattle.mql_expressions.specs.Views.{node_of};

use crate::node::{NodeView, base_at};
use crate::tests::{changes, is_complement, is_conditional, is_index, on_number, operator_of};
use fx8::IntOperator;
use mql_calls::{is_constant, is_of_input, is_void, is_whole_array, no_place, nth};
use mql_syntax::{BinaryOperator, Operation, UnaryOperator};
use mql_typed::{Info, value_base};
use mql_types::{
    Base, binary_sort, bits_of_double, branches, compares_structures, fits, is_number, no_numbers,
    result_base,
};
use natives::SimpleType;

fn is_double(a: Base) -> bool
    ensures { result ≡ is_double a }
{
    match a {
        Base::Simple(SimpleType::Double) => true,
        _ => false,
    }
}

fn is_no_number(a: Base) -> bool
    ensures { result ≡ is_no_number a }
{
    !is_number(a)
}

fn no_number_at(k: usize, n: &NodeView) -> bool
    ensures { result ≡ ask_base k is_no_number (node_of n.now) }
{
    match base_at(k, n) {
        None => false,
        Some(a) => is_no_number(a),
    }
}

fn double_at(k: usize, n: &NodeView) -> bool
    ensures { result ≡ ask_base k is_double (node_of n.now) }
{
    match base_at(k, n) {
        None => false,
        Some(a) => is_double(a),
    }
}

/// Whether the value of a part is converted to a type.
pub(crate) fn no_fit_at(b: Base, k: usize, n: &NodeView) -> bool
    ensures { result ≡ ask_base k (no_fit b) (node_of n.now) }
{
    match base_at(k, n) {
        None => false,
        Some(a) => !fits(a, b),
    }
}

/// Whether the right side of an assignment is not converted to the type of the left one.
pub(crate) fn sides_do_not_fit(n: &NodeView) -> bool
    ensures { result ≡ ask_bases no_fit (node_of n.now) }
{
    match base_at(0, n) {
        None => false,
        Some(a) => no_fit_at(a, 1, n),
    }
}

fn no_update(o: Option<IntOperator>, a: Base, b: Base) -> bool
    ensures { result ≡ no_update o a b }
{
    match o {
        None => false,
        Some(q) => match binary_sort(q, a, b) {
            None => false,
            Some(s) => !fits(result_base(q, s), a),
        },
    }
}

fn no_update_at(o: Option<IntOperator>, a: Base, n: &NodeView) -> bool
    ensures { result ≡ ask_base 1 (no_update o a) (node_of n.now) }
{
    match base_at(1, n) {
        None => false,
        Some(b) => no_update(o, a, b),
    }
}

/// Whether what an operator gives is not converted to the type of the place that it changes.
pub(crate) fn update_does_not_fit(o: Option<IntOperator>, n: &NodeView) -> bool
    ensures { result ≡ ask_bases (no_update o) (node_of n.now) }
{
    match base_at(0, n) {
        None => false,
        Some(a) => no_update_at(o, a, n),
    }
}

fn no_numbers_with(o: IntOperator, a: Base, n: &NodeView) -> bool
    ensures { result ≡ ask_base 1 (no_numbers o a) (node_of n.now) }
{
    match base_at(1, n) {
        None => false,
        Some(b) => no_numbers(o, a, b),
    }
}

fn no_numbers_at(o: IntOperator, n: &NodeView) -> bool
    ensures { result ≡ ask_bases (no_numbers o) (node_of n.now) }
{
    match base_at(0, n) {
        None => false,
        Some(a) => no_numbers_with(o, a, n),
    }
}

fn bits_with(o: IntOperator, a: Base, n: &NodeView) -> bool
    ensures { result ≡ ask_base 1 (bits_of_double o a) (node_of n.now) }
{
    match base_at(1, n) {
        None => false,
        Some(b) => bits_of_double(o, a, b),
    }
}

fn bits_at(o: IntOperator, n: &NodeView) -> bool
    ensures { result ≡ ask_bases (bits_of_double o) (node_of n.now) }
{
    match base_at(0, n) {
        None => false,
        Some(a) => bits_with(o, a, n),
    }
}

fn structures_with(o: IntOperator, a: Base, n: &NodeView) -> bool
    ensures { result ≡ ask_base 1 (compares_structures o a) (node_of n.now) }
{
    match base_at(1, n) {
        None => false,
        Some(b) => compares_structures(o, a, b),
    }
}

fn structures_at(o: IntOperator, n: &NodeView) -> bool
    ensures { result ≡ ask_bases (compares_structures o) (node_of n.now) }
{
    match base_at(0, n) {
        None => false,
        Some(a) => structures_with(o, a, n),
    }
}

fn no_common_with(a: Base, n: &NodeView) -> bool
    ensures { result ≡ ask_base 2 (no_common a) (node_of n.now) }
{
    match base_at(2, n) {
        None => false,
        Some(b) => branches(a, b).is_none(),
    }
}

fn no_common_at(n: &NodeView) -> bool
    ensures { result ≡ passes (λ a. ask_base 2 (no_common a) (node_of n.now)) (base_at 1 (node_of n.now)) }
{
    match base_at(1, n) {
        None => false,
        Some(a) => no_common_with(a, n),
    }
}

/// Whether values of a type are no integers.
pub fn no_integer(a: Base) -> bool
    ensures { result ≡ no_integer a }
{
    is_no_number(a) || is_double(a)
}

fn no_integer_at(n: &NodeView) -> bool
    ensures { result ≡ ask_base 1 no_integer (node_of n.now) }
{
    match base_at(1, n) {
        None => false,
        Some(a) => no_integer(a),
    }
}

fn no_condition(i: &Info) -> bool
    ensures { result ≡ no_condition i.now }
{
    match value_base(i) {
        None => false,
        Some(a) => is_no_number(a),
    }
}

/// Whether a part is a constant, and no input.
pub(crate) fn constant_at(n: &NodeView) -> bool
    ensures { result ≡ ask 0 is_constant (node_of n.now) }
{
    match nth(0, n.parts) {
        None => false,
        Some(i) => is_constant(i),
    }
}

fn input_at(n: &NodeView) -> bool
    ensures { result ≡ ask 0 is_of_input (node_of n.now) }
{
    match nth(0, n.parts) {
        None => false,
        Some(i) => is_of_input(i),
    }
}

fn no_place_at(n: &NodeView) -> bool
    ensures { result ≡ ask 0 no_place (node_of n.now) }
{
    match nth(0, n.parts) {
        None => false,
        Some(i) => no_place(i),
    }
}

/// Whether an index is a whole array.
pub(crate) fn index_is_array(n: &NodeView) -> bool
    ensures { result ≡ ask 1 is_whole_array (node_of n.now) }
{
    match nth(1, n.parts) {
        None => false,
        Some(i) => is_whole_array(i),
    }
}

/// Whether some part gives nothing.
pub(crate) fn some_void(parts: &[Option<Info>]) -> bool
    ensures { result ≡ some_part is_void parts.now }
{
    let mut rest = parts;
    while let [part, others @ ..] = rest {
        if part_is_void(part) {
            return true;
        }
        rest = others;
    }
    false
}

fn part_is_void(part: &Option<Info>) -> bool
    ensures { result ≡ passes is_void part.now }
{
    match part {
        None => false,
        Some(i) => is_void(i),
    }
}

fn part_is_array(part: &Option<Info>) -> bool
    ensures { result ≡ passes is_whole_array part.now }
{
    match part {
        None => false,
        Some(i) => is_whole_array(i),
    }
}

/// Whether some part is a whole array.
pub(crate) fn some_array(parts: &[Option<Info>]) -> bool
    ensures { result ≡ some_part is_whole_array parts.now }
{
    let mut rest = parts;
    while let [part, others @ ..] = rest {
        if part_is_array(part) {
            return true;
        }
        rest = others;
    }
    false
}

fn part_no_condition(part: &Option<Info>) -> bool
    ensures { result ≡ passes no_condition part.now }
{
    match part {
        None => false,
        Some(i) => no_condition(i),
    }
}

fn some_no_condition(parts: &[Option<Info>]) -> bool
    ensures { result ≡ some_part no_condition parts.now }
{
    let mut rest = parts;
    while let [part, others @ ..] = rest {
        if part_no_condition(part) {
            return true;
        }
        rest = others;
    }
    false
}

/// 11: an input is changed.
pub(crate) fn input_changed(n: &NodeView) -> bool
    ensures { (c : Context) → result ≡ input_changed c (node_of n.now) }
{
    changes(n.what) && input_at(n)
}

/// 12: what is changed is no place.
pub(crate) fn left_no_place(n: &NodeView) -> bool
    ensures { (c : Context) → result ≡ left_no_place c (node_of n.now) }
{
    changes(n.what) && no_place_at(n)
}

fn operator_takes_no_numbers(n: &NodeView) -> bool
    ensures { result ≡ passes (λ o. ask_bases (no_numbers o) (node_of n.now)) (operator_of n.now.what.now) }
{
    match operator_of(n.what) {
        None => false,
        Some(o) => no_numbers_at(o, n),
    }
}

/// 14: an operand is no number.
pub(crate) fn no_number(n: &NodeView) -> bool
    ensures { (c : Context) → result ≡ no_number c (node_of n.now) }
{
    (on_number(n.what) && no_number_at(0, n)) || operator_takes_no_numbers(n)
}

fn operator_on_bits(n: &NodeView) -> bool
    ensures { result ≡
        passes (λ o. ask_bases (bits_of_double o) (node_of n.now)) (operator_of n.now.what.now) }
{
    match operator_of(n.what) {
        None => false,
        Some(o) => bits_at(o, n),
    }
}

/// 15: an operator on integers has a `double`.
pub(crate) fn double_bits(n: &NodeView) -> bool
    ensures { (c : Context) → result ≡ double_bits c (node_of n.now) }
{
    (is_complement(n.what) && double_at(0, n)) || operator_on_bits(n)
}

fn array_compared(o: IntOperator, n: &NodeView) -> bool
    ensures { result ≡ array_compared o (node_of n.now) }
{
    compares_structures(o, Base::Structure(0), Base::Structure(0)) && some_array(n.parts)
}

fn compared_by(o: IntOperator, n: &NodeView) -> bool
    ensures { result ≡
        (array_compared o (node_of n.now) || ask_bases (compares_structures o) (node_of n.now)) }
{
    array_compared(o, n) || structures_at(o, n)
}

/// 16: arrays or structures are compared.
pub(crate) fn structures_compared(n: &NodeView) -> bool
    ensures { (c : Context) → result ≡ structures_compared c (node_of n.now) }
{
    match operator_of(n.what) {
        None => false,
        Some(o) => compared_by(o, n),
    }
}

/// 17: a condition is no number.
pub(crate) fn condition_no_number(n: &NodeView) -> bool
    ensures { (c : Context) → result ≡ condition_no_number c (node_of n.now) }
{
    match n.what {
        Operation::Conditional | Operation::Unary(UnaryOperator::Not) => no_number_at(0, n),
        Operation::Binary(BinaryOperator::And) => some_no_condition(n.parts),
        Operation::Binary(BinaryOperator::Or) => some_no_condition(n.parts),
        _ => false,
    }
}

/// 24: an index stands on no array.
pub(crate) fn index_no_array(n: &NodeView) -> bool
    ensures { (c : Context) → result ≡ index_no_array c (node_of n.now) }
{
    is_index(n.what) && base_at(0, n).is_some()
}

/// 25: an index is no integer.
pub(crate) fn index_no_integer(n: &NodeView) -> bool
    ensures { (c : Context) → result ≡ index_no_integer c (node_of n.now) }
{
    is_index(n.what) && no_integer_at(n)
}

/// 39: the branches of `?:` have no common type.
pub(crate) fn branches_differ(n: &NodeView) -> bool
    ensures { (c : Context) → result ≡ branches_differ c (node_of n.now) }
{
    is_conditional(n.what) && no_common_at(n)
}
