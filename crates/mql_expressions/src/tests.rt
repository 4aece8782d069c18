//! Tests of operations.
ghost use Rattle.std.specs.Prelude.{◌≡◌};
ghost use Rattle.mql_syntax.specs.declared.value.Operation.TheVariants as operation;
ghost use Rattle.mql_expressions.specs.Rules.{operator_of, changes, on_number, is_call, is_complement, is_index, takes_arrays, is_new, on_pointer, is_this, is_braces, is_conditional};

use fx8::IntOperator;
use mql_syntax::{Operation, UnaryOperator};
use mql_typed::int_operator;

/// The operator between two values at a node, that of an assignment included.
pub(crate) fn operator_of(what: &Operation) -> Option<IntOperator>
    ensures { result ≡ operator_of what.now }
{
    match what {
        Operation::Binary(o) => int_operator(*o),
        Operation::AssignWith(o) => int_operator(*o),
        _ => None,
    }
}

/// Whether a place is changed.
pub(crate) fn changes(what: &Operation) -> bool
    ensures { result ≡ changes what.now }
{
    match what {
        Operation::Assign | Operation::AssignWith(_) | Operation::Postfix(_) => true,
        Operation::Unary(UnaryOperator::Increment) => true,
        Operation::Unary(UnaryOperator::Decrement) => true,
        _ => false,
    }
}

fn unary_on_number(o: UnaryOperator) -> bool
    ensures { result ≡ on_number (operation.Unary o) }
{
    match o {
        UnaryOperator::Complement
        | UnaryOperator::Minus
        | UnaryOperator::Plus
        | UnaryOperator::Increment
        | UnaryOperator::Decrement => true,
        UnaryOperator::Not | UnaryOperator::Address | UnaryOperator::Object => false,
    }
}

/// Whether it is an operator on one number.
pub(crate) fn on_number(what: &Operation) -> bool
    ensures { result ≡ on_number what.now }
{
    match what {
        Operation::Unary(o) => unary_on_number(*o),
        Operation::Postfix(_) => true,
        _ => false,
    }
}

pub(crate) fn is_call(what: &Operation) -> bool
    ensures { result ≡ is_call what.now }
{
    match what {
        Operation::Call => true,
        _ => false,
    }
}

pub(crate) fn is_complement(what: &Operation) -> bool
    ensures { result ≡ is_complement what.now }
{
    match what {
        Operation::Unary(UnaryOperator::Complement) => true,
        _ => false,
    }
}

pub(crate) fn is_index(what: &Operation) -> bool
    ensures { result ≡ is_index what.now }
{
    match what {
        Operation::Index => true,
        _ => false,
    }
}

/// Whether a part may be a whole array: what is indexed, what stands in parentheses, whose member is asked
/// for, and arguments.
pub(crate) fn takes_arrays(what: &Operation) -> bool
    ensures { result ≡ takes_arrays what.now }
{
    match what {
        Operation::Parentheses | Operation::Call | Operation::Member(_) | Operation::Index => true,
        _ => false,
    }
}

pub(crate) fn is_new(what: &Operation) -> bool
    ensures { result ≡ is_new what.now }
{
    match what {
        Operation::New => true,
        _ => false,
    }
}

pub(crate) fn on_pointer(what: &Operation) -> bool
    ensures { result ≡ on_pointer what.now }
{
    match what {
        Operation::DynamicCast => true,
        Operation::Unary(UnaryOperator::Address) => true,
        Operation::Unary(UnaryOperator::Object) => true,
        _ => false,
    }
}

pub(crate) fn is_this(what: &Operation) -> bool
    ensures { result ≡ is_this what.now }
{
    match what {
        Operation::This => true,
        _ => false,
    }
}

pub(crate) fn is_braces(what: &Operation) -> bool
    ensures { result ≡ is_braces what.now }
{
    match what {
        Operation::Braces => true,
        _ => false,
    }
}

pub(crate) fn is_conditional(what: &Operation) -> bool
    ensures { result ≡ is_conditional what.now }
{
    match what {
        Operation::Conditional => true,
        _ => false,
    }
}
