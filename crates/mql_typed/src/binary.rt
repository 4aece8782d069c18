//! Operators between two expressions, and `?:`.
ghost use Rattle.std.specs.Prelude.{◌≡◌, ◌++◌, IfOk};
ghost use Rattle.mql_types.specs.Operators.{bool};
ghost use Rattle.mql_typed.specs.Typed.{condition, converted};
ghost use Rattle.mql_typed.specs.Operations.{on, truth, a_truth, no_parts, with_part, with_truth, chosen, both, either_of, in_binary_sort, sort_for, by_operator, binary_info, choice, branch_base, conditional_info};

use crate::info::Info;
use crate::typed::{a_value, condition, converted, into_sort, on_two, value_base};
use crate::unary::int_operator;
use fx8::{IntKind, IntOperator, ItemList, OutOfMemory};
use mql_mean::Value;
use mql_meaning::{Expression, Operator, Sort, VarType};
use mql_syntax::BinaryOperator;
use mql_types::{Base, binary_sort, branches, result_base};
use natives::SimpleType;
use std::alloc::Global;

/// The locals of one expression, and those of the next.
pub fn joined(
    mut kept: ItemList<VarType>,
    more: ItemList<VarType>,
) -> Result<ItemList<VarType>, OutOfMemory>
    ensures { IfOk result (λ r. r ≡ kept ++ more) }
{
    kept.append(more)?;
    Ok(kept)
}

fn truth(b: bool) -> i128
    ensures { result ≡ truth b }
{
    if b { 1 } else { 0 }
}

fn a_truth(b: bool) -> Expression
    ensures { result ≡ a_truth b }
{
    Expression::Constant(Value::Num(IntKind::Bool, truth(b)))
}

fn bool_base() -> Base
    ensures { result ≡ bool }
{
    Base::Simple(SimpleType::Integer(IntKind::Bool))
}

/// Parts of a choice, and the locals that they take.
#[derive(Drop)]
struct Parts {
    typed: ItemList<Expression>,
    kept: ItemList<VarType>,
}

fn no_parts(alloc: Global) -> Parts
    ensures { result ≡ no_parts }
{
    Parts {
        typed: ItemList::new(alloc),
        kept: ItemList::new(alloc),
    }
}

fn with_part(p: Parts, e: Expression, more: ItemList<VarType>) -> Result<Parts, OutOfMemory>
    ensures { IfOk result (λ r. r ≡ with_part p e more) }
{
    let Parts {
        mut typed,
        mut kept,
    } = p;
    typed.push(e)?;
    kept.append(more)?;
    Ok(Parts { typed, kept })
}

fn with_condition(alloc: Global, p: Parts, i: Info) -> Result<Parts, OutOfMemory>
    ensures { IfOk result (λ r. r ≡ with_part p (condition i) i.kept) }
{
    let (e, kept) = condition(alloc, i)?;
    with_part(p, e, kept)
}

fn with_converted(alloc: Global, p: Parts, b: Base, i: Info) -> Result<Parts, OutOfMemory>
    ensures { IfOk result (λ r. r ≡ with_part p (converted b i) i.kept) }
{
    let (e, kept) = converted(alloc, b, i)?;
    with_part(p, e, kept)
}

fn with_truth(p: Parts, b: bool) -> Result<Parts, OutOfMemory>
    ensures { IfOk result (λ r. r ≡ with_truth p b) }
{
    let Parts { mut typed, kept } = p;
    typed.push(a_truth(b))?;
    Ok(Parts { typed, kept })
}

fn chosen(b: Base, p: Parts) -> Info
    ensures { result ≡ chosen b p }
{
    let Parts { typed, kept } = p;
    a_value(b, kept, Expression::Choose(typed))
}

fn both(alloc: Global, i: Info, j: Info) -> Result<Info, OutOfMemory>
    ensures { IfOk result (λ r. r ≡ both i j) }
{
    let first = with_condition(alloc, no_parts(alloc), i)?;
    let second = with_condition(alloc, first, j)?;
    let all = with_truth(second, false)?;
    Ok(chosen(bool_base(), all))
}

fn either_of(alloc: Global, i: Info, j: Info) -> Result<Info, OutOfMemory>
    ensures { IfOk result (λ r. r ≡ either_of i j) }
{
    let first = with_condition(alloc, no_parts(alloc), i)?;
    let second = with_truth(first, true)?;
    let all = with_condition(alloc, second, j)?;
    Ok(chosen(bool_base(), all))
}

fn in_binary_sort(
    alloc: Global,
    o: IntOperator,
    i: Info,
    j: Info,
    s: Sort,
) -> Result<Info, OutOfMemory>
    ensures { IfOk result (λ r. r ≡ in_binary_sort o i j s) }
{
    let (x, own) = into_sort(alloc, s, i)?;
    let (y, more) = into_sort(alloc, s, j)?;
    let kept = joined(own, more)?;
    let e = on_two(alloc, Operator::Binary(o, s), x, y)?;
    Ok(a_value(result_base(o, s), kept, e))
}

/// The sort in which an operator works on the values of two expressions; none where a rule forbids it.
pub(crate) fn sort_for(o: IntOperator, i: &Info, j: &Info) -> Option<Sort>
    ensures { result ≡ sort_for o i.now j.now }
{
    match value_base(i) {
        None => None,
        Some(a) => match value_base(j) {
            None => None,
            Some(b) => binary_sort(o, a, b),
        },
    }
}

fn by_operator(alloc: Global, o: IntOperator, i: Info, j: Info) -> Result<Option<Info>, OutOfMemory>
    ensures { IfOk result (λ r. r ≡ by_operator o i j) }
{
    match sort_for(o, &i, &j) {
        None => Ok(None),
        Some(s) => {
            let r = in_binary_sort(alloc, o, i, j, s)?;
            Ok(Some(r))
        }
    }
}

fn by_some(
    alloc: Global,
    o: Option<IntOperator>,
    i: Info,
    j: Info,
) -> Result<Option<Info>, OutOfMemory>
    ensures { IfOk result (λ r. r ≡ on o (λ q. by_operator q i j)) }
{
    match o {
        None => Ok(None),
        Some(q) => by_operator(alloc, q, i, j),
    }
}

/// What an operator between two expressions gives.
pub fn binary_info(
    alloc: Global,
    o: BinaryOperator,
    i: Info,
    j: Info,
) -> Result<Option<Info>, OutOfMemory>
    ensures { IfOk result (λ r. r ≡ binary_info o i j) }
{
    match o {
        BinaryOperator::And => {
            let r = both(alloc, i, j)?;
            Ok(Some(r))
        }
        BinaryOperator::Or => {
            let r = either_of(alloc, i, j)?;
            Ok(Some(r))
        }
        _ => by_some(alloc, int_operator(o), i, j),
    }
}

fn choice(alloc: Global, test: Info, i: Info, j: Info, b: Base) -> Result<Info, OutOfMemory>
    ensures { IfOk result (λ r. r ≡ choice test i j b) }
{
    let first = with_condition(alloc, no_parts(alloc), test)?;
    let second = with_converted(alloc, first, b, i)?;
    let all = with_converted(alloc, second, b, j)?;
    Ok(chosen(b, all))
}

fn branch_base(i: &Info, j: &Info) -> Option<Base>
    ensures { result ≡ branch_base i.now j.now }
{
    match value_base(i) {
        None => None,
        Some(a) => match value_base(j) {
            None => None,
            Some(b) => branches(a, b),
        },
    }
}

/// What `?:` gives, of its test and its two branches; none where these have no common type.
pub fn conditional_info(
    alloc: Global,
    test: Info,
    i: Info,
    j: Info,
) -> Result<Option<Info>, OutOfMemory>
    ensures { IfOk result (λ r. r ≡ conditional_info test i j) }
{
    match branch_base(&i, &j) {
        None => Ok(None),
        Some(b) => {
            let r = choice(alloc, test, i, j, b)?;
            Ok(Some(r))
        }
    }
}
