//! What operations on expressions give.
ghost use Rattle.std.specs.Prelude.{◌≡◌, Some, IfOk};
ghost use Rattle.mql_typed.specs.Operations.{int_operator, literal, not_info, number_sort, in_sort, minus, complement, plus, bumped, unary_info, postfix_info};

use crate::info::Info;
use crate::typed::{a_value, condition, into_sort, on_one, value_base};
use fx8::{IntKind, IntOperator, ItemList, OutOfMemory};
use mql_mean::Value;
use mql_meaning::{Bump, Expression, Operator, Sort, UnaryOperator as Applied};
use mql_syntax::{BinaryOperator, Step, UnaryOperator};
use mql_types::{Base, sort_base, unary_sort};
use natives::SimpleType;
use std::alloc::Global;

/// The operator of two numbers or strings that an operator is; `&&` and `||` are none.
pub fn int_operator(o: BinaryOperator) -> Option<IntOperator>
    ensures { result ≡ int_operator o }
{
    match o {
        BinaryOperator::Multiply => Some(IntOperator::Multiply),
        BinaryOperator::Divide => Some(IntOperator::Divide),
        BinaryOperator::Remainder => Some(IntOperator::Remainder),
        BinaryOperator::Add => Some(IntOperator::Add),
        BinaryOperator::Subtract => Some(IntOperator::Subtract),
        BinaryOperator::ShiftLeft => Some(IntOperator::ShiftLeft),
        BinaryOperator::ShiftRight => Some(IntOperator::ShiftRight),
        BinaryOperator::Less => Some(IntOperator::Less),
        BinaryOperator::LessOrEqual => Some(IntOperator::LessOrEqual),
        BinaryOperator::Greater => Some(IntOperator::Greater),
        BinaryOperator::GreaterOrEqual => Some(IntOperator::GreaterOrEqual),
        BinaryOperator::Equal => Some(IntOperator::Equal),
        BinaryOperator::NotEqual => Some(IntOperator::NotEqual),
        BinaryOperator::BitAnd => Some(IntOperator::BitAnd),
        BinaryOperator::BitXor => Some(IntOperator::BitXor),
        BinaryOperator::BitOr => Some(IntOperator::BitOr),
        BinaryOperator::And | BinaryOperator::Or => None,
    }
}

/// What is told of a literal.
pub fn literal(alloc: Global, b: Base, v: Value) -> Info
    ensures { Some result ≡ literal b v }
{
    a_value(b, ItemList::new(alloc), Expression::Constant(v))
}

fn not_info(alloc: Global, i: Info) -> Result<Info, OutOfMemory>
    ensures { IfOk result (λ r. r ≡ not_info i) }
{
    let (test, kept) = condition(alloc, i)?;
    let e = on_one(
        alloc,
        Operator::Unary(Applied::Not, Sort::Number(IntKind::Bool)),
        test,
    )?;
    Ok(a_value(Base::Simple(SimpleType::Integer(IntKind::Bool)), kept, e))
}

fn number_sort(i: &Info) -> Option<Sort>
    ensures { result ≡ number_sort i.now }
{
    match value_base(i) {
        None => None,
        Some(b) => unary_sort(b),
    }
}

fn minus_info(alloc: Global, i: Info) -> Result<Option<Info>, OutOfMemory>
    ensures { IfOk result (λ r. r ≡ in_sort minus i) }
{
    match number_sort(&i) {
        None => Ok(None),
        Some(s) => {
            let (x, kept) = into_sort(alloc, s, i)?;
            let e = on_one(alloc, Operator::Unary(Applied::Minus, s), x)?;
            Ok(Some(a_value(sort_base(s), kept, e)))
        }
    }
}

fn complement_info(alloc: Global, i: Info) -> Result<Option<Info>, OutOfMemory>
    ensures { IfOk result (λ r. r ≡ in_sort complement i) }
{
    match number_sort(&i) {
        None => Ok(None),
        Some(s) => {
            let (x, kept) = into_sort(alloc, s, i)?;
            let e = on_one(alloc, Operator::Unary(Applied::Complement, s), x)?;
            Ok(Some(a_value(sort_base(s), kept, e)))
        }
    }
}

fn plus_info(alloc: Global, i: Info) -> Result<Option<Info>, OutOfMemory>
    ensures { IfOk result (λ r. r ≡ in_sort plus i) }
{
    match number_sort(&i) {
        None => Ok(None),
        Some(s) => {
            let (x, kept) = into_sort(alloc, s, i)?;
            Ok(Some(a_value(sort_base(s), kept, x)))
        }
    }
}

fn bumped(alloc: Global, o: Bump, i: Info) -> Result<Option<Info>, OutOfMemory>
    ensures { IfOk result (λ r. r ≡ bumped o i) }
{
    match value_base(&i) {
        None => Ok(None),
        Some(b) => {
            let Info { typed, kept, .. } = i;
            let e = on_one(alloc, Operator::Bump(o), typed)?;
            Ok(Some(a_value(b, kept, e)))
        }
    }
}

/// What an operator before an expression gives.
pub fn unary_info(alloc: Global, o: UnaryOperator, i: Info) -> Result<Option<Info>, OutOfMemory>
    ensures { IfOk result (λ r. r ≡ unary_info o i) }
{
    match o {
        UnaryOperator::Not => {
            let r = not_info(alloc, i)?;
            Ok(Some(r))
        }
        UnaryOperator::Minus => minus_info(alloc, i),
        UnaryOperator::Complement => complement_info(alloc, i),
        UnaryOperator::Plus => plus_info(alloc, i),
        UnaryOperator::Increment => bumped(alloc, Bump::MoreFirst, i),
        UnaryOperator::Decrement => bumped(alloc, Bump::LessFirst, i),
        UnaryOperator::Address | UnaryOperator::Object => Ok(None),
    }
}

/// What an operator behind an expression gives.
pub fn postfix_info(alloc: Global, s: Step, i: Info) -> Result<Option<Info>, OutOfMemory>
    ensures { IfOk result (λ r. r ≡ postfix_info s i) }
{
    match s {
        Step::Increment => bumped(alloc, Bump::MoreAfter, i),
        Step::Decrement => bumped(alloc, Bump::LessAfter, i),
    }
}
