//! The constant that a value is.
ghost use Rattle.std.specs.Prelude.{◌≡◌, ℕ, List, [], ◌∷◌, Option, Some, None, map, IfOk};
ghost use Rattle.natives.specs.declared.types.ConstantValue.{ConstantValue};
ghost use Rattle.natives.specs.declared.types.SimpleType.{SimpleType};
ghost use Rattle.mql_syntax.specs.declared.value.TypeUse.{TypeUse};
ghost use Rattle.mql_constants.specs.Constants as constants;

use crate::number::{binary, bool_of, chosen, complement, converted, holds, negative, same_number};
use fx8::{IntOperator, ItemList, OutOfMemory};
use mql_syntax::{BinaryOperator, Operation, TypeUse, UnaryOperator, Value};
use natives::{ConstantValue, SimpleType};
use std::alloc::Global;

/// What the names mean that stand in a value.
pub trait ConstantScope {
    /// The constant that a name is, if it is one.
    ghost numbers: { Self → List ℕ → Option ConstantValue };

    /// The simple type that a type is, if it is one.
    ghost types: { Self → TypeUse → Option SimpleType };

    /// The constant that a name is, if it is one.
    fn number(&self, name: &[u16]) -> Option<ConstantValue>
        ensures { result ≡ numbers self.now name.now };

    /// The simple type that a type is, if it is one.
    fn simple_type(&self, of: &TypeUse) -> Option<SimpleType>
        ensures { result ≡ types self.now of.now };
}

/// An operator before a constant.
#[tactic(auto, unfolding(crate::specs::Constants::changed))]
fn changed(operator: UnaryOperator, a: ConstantValue) -> Option<ConstantValue>
    ensures { result ≡ constants.changed operator a }
{
    match operator {
        UnaryOperator::Minus => negative(a),
        UnaryOperator::Plus => Some(same_number(a)),
        UnaryOperator::Complement => complement(a),
        UnaryOperator::Not => Some(bool_of(!holds(a))),
        UnaryOperator::Increment
        | UnaryOperator::Decrement
        | UnaryOperator::Address
        | UnaryOperator::Object => None,
    }
}

/// An operator between two constants.
#[tactic(auto, unfolding(crate::specs::Constants::joined))]
fn joined(operator: BinaryOperator, a: ConstantValue, b: ConstantValue) -> Option<ConstantValue>
    ensures { result ≡ constants.joined operator a b }
{
    match operator {
        BinaryOperator::Multiply => binary(IntOperator::Multiply, a, b),
        BinaryOperator::Divide => binary(IntOperator::Divide, a, b),
        BinaryOperator::Remainder => binary(IntOperator::Remainder, a, b),
        BinaryOperator::Add => binary(IntOperator::Add, a, b),
        BinaryOperator::Subtract => binary(IntOperator::Subtract, a, b),
        BinaryOperator::ShiftLeft => binary(IntOperator::ShiftLeft, a, b),
        BinaryOperator::ShiftRight => binary(IntOperator::ShiftRight, a, b),
        BinaryOperator::Less => binary(IntOperator::Less, a, b),
        BinaryOperator::LessOrEqual => binary(IntOperator::LessOrEqual, a, b),
        BinaryOperator::Greater => binary(IntOperator::Greater, a, b),
        BinaryOperator::GreaterOrEqual => binary(IntOperator::GreaterOrEqual, a, b),
        BinaryOperator::Equal => binary(IntOperator::Equal, a, b),
        BinaryOperator::NotEqual => binary(IntOperator::NotEqual, a, b),
        BinaryOperator::BitAnd => binary(IntOperator::BitAnd, a, b),
        BinaryOperator::BitXor => binary(IntOperator::BitXor, a, b),
        BinaryOperator::BitOr => binary(IntOperator::BitOr, a, b),
        BinaryOperator::And => Some(bool_of(holds(a) && holds(b))),
        BinaryOperator::Or => Some(bool_of(holds(a) || holds(b))),
    }
}

fn one(parts: &[Option<ConstantValue>]) -> Option<ConstantValue>
    ensures { result ≡ constants.one parts.now }
{
    match parts {
        [Some(a)] => Some(*a),
        _ => None,
    }
}

fn two(parts: &[Option<ConstantValue>]) -> Option<(ConstantValue, ConstantValue)>
    ensures { result ≡ constants.two parts.now }
{
    match parts {
        [Some(a), Some(b)] => Some((*a, *b)),
        _ => None,
    }
}

fn three(parts: &[Option<ConstantValue>]) -> Option<(ConstantValue, ConstantValue, ConstantValue)>
    ensures { result ≡ constants.three parts.now }
{
    match parts {
        [Some(a), Some(b), Some(c)] => Some((*a, *b, *c)),
        _ => None,
    }
}

fn the_type<S: ConstantScope>(scope: &S, types: &[TypeUse]) -> Option<SimpleType>
    ensures { result ≡ constants.the_type (S.types scope.now) types.now }
{
    match types {
        [of] => scope.simple_type(of),
        _ => None,
    }
}

fn taken<S: ConstantScope>(
    scope: &S,
    types: &[TypeUse],
    parts: &[Option<ConstantValue>],
) -> Option<ConstantValue>
    ensures { result ≡ constants.taken (S.types scope.now) types.now parts.now }
{
    let of = the_type(scope, types)?;
    converted(of, one(parts)?)
}

/// What a value does with constants.
#[tactic(auto, unfolding(crate::specs::Constants::operated))]
fn operated<S: ConstantScope>(
    scope: &S,
    what: &Operation,
    types: &[TypeUse],
    parts: &[Option<ConstantValue>],
) -> Option<ConstantValue>
    ensures { result ≡
        constants.operated (S.numbers scope.now) (S.types scope.now) what.now types.now parts.now }
{
    match what {
        Operation::Name(name) => scope.number(name.as_slice()),
        Operation::Int { value, kind } => Some(ConstantValue::Integer(*kind, *value as i128)),
        Operation::Double(x) => Some(ConstantValue::Double(*x)),
        Operation::Bool(holds) => Some(bool_of(*holds)),
        Operation::Parentheses => one(parts),
        Operation::Unary(operator) => changed(*operator, one(parts)?),
        Operation::Binary(operator) => {
            let (a, b) = two(parts)?;
            joined(*operator, a, b)
        }
        Operation::Conditional => {
            let (test, a, b) = three(parts)?;
            chosen(test, a, b)
        }
        Operation::Conversion | Operation::Cast => taken(scope, types, parts),
        _ => None,
    }
}

/// The constant that a value is, if it is one.
#[cycle(constants)]
#[tactic(auto, using(crate::proofs::Parts::at_value))]
pub fn constant_of<S: ConstantScope>(
    alloc: Global,
    scope: &S,
    v: &Value,
) -> Result<Option<ConstantValue>, OutOfMemory>
    ensures { IfOk result (λ found. found ≡
        constants.constant_of (S.numbers scope.now) (S.types scope.now) v.now) }
{
    match v {
        Value::Node {
            what,
            types,
            parts,
            ..
        } => {
            let found = constants_of(alloc, scope, parts.as_slice())?;
            Ok(operated(scope, what, types.as_slice(), found.as_slice()))
        }
    }
}

/// The constants that values are.
#[cycle(constants)]
fn constants_of<S: ConstantScope>(
    alloc: Global,
    scope: &S,
    values: &[Value],
) -> Result<ItemList<Option<ConstantValue>>, OutOfMemory>
    ensures { IfOk result (λ found. found ≡
        map (constants.constant_of (S.numbers scope.now) (S.types scope.now)) values.now) }
{
    let mut found = ItemList::new(alloc);
    for v in values {
        found.push(constant_of(alloc, scope, v)?)?;
    }
    Ok(found)
}
