//! The constant that an expression is.
ghost use Rattle.std.specs.Prelude.{◌≡◌, ℕ, List, [], ◌∷◌, Option, Some, None, map, option_map, IfOk};
ghost use Rattle.std.specs.Option.{option_copied};
ghost use Rattle.natives.specs.declared.types.ConstantValue.{ConstantValue};
ghost use Rattle.natives.specs.declared.types.SimpleType.{SimpleType};
ghost use Rattle.mql_syntax.specs.declared.value.TypeUse.{TypeUse};
ghost use Rattle.mql_constants.specs.Constants as numbers;
ghost use Rattle.mql_values.specs.Values as values;

use crate::texts::{chosen, joined};
use fx8::{ItemList, OutOfMemory, Text};
use mql_constants::{ConstantScope, constant_of as number_of};
use mql_mean::Value;
use mql_syntax::{Operation, TypeUse, Value as SyntaxValue};
use mql_types::{Base, sort_of};
use native_conversions::{a_string, converted};
use natives::{ConstantValue, SimpleType};
use std::alloc::Global;

/// A constant taken into a type, where it has a value there: an enumeration is an `int`, a structure has none
/// (MQL5 Reference, Typecasting).
#[tactic(auto, unfolding(crate::specs::Values::as_type))]
pub fn as_type(alloc: Global, of: Base, v: &Value) -> Result<Option<Value>, OutOfMemory>
    ensures { IfOk result (λ found. found ≡ values.as_type of v.now) }
{
    match sort_of(of) {
        None => Ok(None),
        Some(sort) => converted(alloc, v, sort),
    }
}

/// A number as a value.
fn number_value(number: ConstantValue) -> Value
    ensures { result ≡ values.number_value number }
{
    match number {
        ConstantValue::Integer(kind, x) => Value::Num(kind, x),
        ConstantValue::Double(x) => Value::Dbl(x),
    }
}

fn one(parts: &[Option<Value>]) -> Option<&Value>
    ensures { option_copied result ≡ values.one parts.now }
{
    match parts {
        [Some(a)] => Some(a),
        _ => None,
    }
}

fn two(parts: &[Option<Value>]) -> Option<(&Value, &Value)>
    ensures { option_map (λ p. (p.0.now, p.1.now)) result ≡ values.two parts.now }
{
    match parts {
        [Some(a), Some(b)] => Some((a, b)),
        _ => None,
    }
}

fn three(parts: &[Option<Value>]) -> Option<(&Value, &Value, &Value)>
    ensures { option_map (λ p. (p.0.now, p.1.now, p.2.now)) result ≡ values.three parts.now }
{
    match parts {
        [Some(a), Some(b), Some(c)] => Some((a, b, c)),
        _ => None,
    }
}

fn the_type<S: ConstantScope>(scope: &S, types: &[TypeUse]) -> Option<SimpleType>
    ensures { result ≡ numbers.the_type (S.types scope.now) types.now }
{
    match types {
        [of] => scope.simple_type(of),
        _ => None,
    }
}

/// A constant taken into the type that is written.
fn taken<S: ConstantScope>(
    alloc: Global,
    scope: &S,
    types: &[TypeUse],
    parts: &[Option<Value>],
) -> Result<Option<Value>, OutOfMemory>
    ensures { IfOk result (λ v. v ≡ values.taken (S.types scope.now) types.now parts.now) }
{
    match the_type(scope, types) {
        None => Ok(None),
        Some(of) => match one(parts) {
            None => Ok(None),
            Some(v) => as_type(alloc, Base::Simple(of), v),
        },
    }
}

/// A constant in parentheses.
fn inner(alloc: Global, parts: &[Option<Value>]) -> Result<Option<Value>, OutOfMemory>
    ensures { IfOk result (λ v. v ≡ values.one parts.now) }
{
    match one(parts) {
        None => Ok(None),
        Some(v) => Ok(Some(v.copy(alloc)?)),
    }
}

/// What an expression that is no constant number makes of constants.
#[tactic(auto, unfolding(crate::specs::Values::made))]
fn made<S: ConstantScope>(
    alloc: Global,
    scope: &S,
    what: &Operation,
    types: &[TypeUse],
    parts: &[Option<Value>],
) -> Result<Option<Value>, OutOfMemory>
    ensures { IfOk result (λ v. v ≡ values.made (S.types scope.now) what.now types.now parts.now) }
{
    match what {
        Operation::Text(text) => Ok(a_string(Text::from_slice(alloc, text.as_slice())?)),
        Operation::Null => Ok(Some(Value::Ptr(0))),
        Operation::Parentheses => inner(alloc, parts),
        Operation::Binary(operator) => match two(parts) {
            None => Ok(None),
            Some((a, b)) => joined(alloc, *operator, a, b),
        },
        Operation::Conditional => match three(parts) {
            None => Ok(None),
            Some((test, a, b)) => chosen(alloc, test, a, b),
        },
        Operation::Conversion | Operation::Cast => taken(alloc, scope, types, parts),
        _ => Ok(None),
    }
}

/// The constant that an expression is, if it is one.
#[cycle(constants)]
#[tactic(auto, using(crate::proofs::Parts::number_found, crate::proofs::Parts::made_of))]
pub fn constant_of<S: ConstantScope>(
    alloc: Global,
    scope: &S,
    v: &SyntaxValue,
) -> Result<Option<Value>, OutOfMemory>
    ensures { IfOk result (λ found. found ≡
        values.constant_of (S.numbers scope.now) (S.types scope.now) v.now) }
{
    let number = number_of(alloc, scope, v)?;
    if let Some(number) = number {
        return Ok(Some(number_value(number)));
    }
    match v {
        SyntaxValue::Node {
            what,
            types,
            parts,
            ..
        } => {
            let found = constants_of(alloc, scope, parts.as_slice())?;
            made(alloc, scope, what, types.as_slice(), found.as_slice())
        }
    }
}

/// The constants that expressions are.
#[cycle(constants)]
fn constants_of<S: ConstantScope>(
    alloc: Global,
    scope: &S,
    of: &[SyntaxValue],
) -> Result<ItemList<Option<Value>>, OutOfMemory>
    ensures { IfOk result (λ found. found ≡
        map (values.constant_of (S.numbers scope.now) (S.types scope.now)) of.now) }
{
    let mut found = ItemList::new(alloc);
    for v in of {
        let constant = constant_of(alloc, scope, v)?;
        found.push(constant)?;
    }
    Ok(found)
}
