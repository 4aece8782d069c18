//! Operators on operands that take no memory: each does all that it does, or nothing.
ghost use Rattle.std.specs.Prelude.{◌≡◌, [], ◌∷◌, List};
ghost use Rattle.mql_meaning.specs.declared.store.Store as stores;
ghost use Rattle.mql_meaning.specs.declared.tree.Class as trees;
ghost use Rattle.mql_meaning.specs.declared.operator.Operator.TheVariants as operators;
ghost use Rattle.mql_meaning.specs.declared.types.Sort.TheVariants as sorts;
ghost use Rattle.mql_meaning.specs.Apply.{apply};
ghost use Rattle.stack_unboxed.specs.Unboxed.{Gave, Tells, boxed};

use crate::numbers::{fitted, kind_of_result, operated};
use crate::unboxed::{Number, Unboxed};
use crate::variables::{number_at, own_local, put_number};
use fx8::{IntKind, IntOperator};
use mql_meaning::{Operator, Root, Sort, Store};

/// What an operator gives that takes no operand.
#[inline(always)]
#[tactic(auto, using(crate::proofs::Gives::local_given))]
pub(crate) fn given(operator: Operator, store: &Store) -> Option<Unboxed>
    ensures { (cs : List trees.Class) → Tells result (apply cs operator []) store.now }
{
    match operator {
        Operator::Local(local) => match own_local(local, store) {
            Some(root) => Some(Unboxed::Variable(root)),
            None => None,
        },
        Operator::Global(global) => Some(Unboxed::Variable(Root::Global(global))),
        _ => None,
    }
}

/// The number that a variable holds.
#[inline(always)]
#[tactic(auto, using(crate::proofs::Gives::number_read))]
fn read(operand: Unboxed, store: &Store) -> Option<Unboxed>
    ensures { (cs : List trees.Class) →
        Tells result (apply cs operators.Read (boxed operand ∷ [])) store.now }
{
    match operand {
        Unboxed::Number(_) => None,
        Unboxed::Variable(root) => match number_at(root, store) {
            Some(number) => Some(Unboxed::Number(number)),
            None => None,
        },
    }
}

/// A number, taken into a kind.
#[inline(always)]
#[tactic(auto, using(crate::proofs::Gives::number_converted))]
fn converted(kind: IntKind, operand: Unboxed) -> Option<Unboxed>
    ensures { (cs : List trees.Class) (s : stores.Store) →
        Tells result (apply cs (operators.Convert (sorts.Number kind)) (boxed operand ∷ [])) s }
{
    match operand {
        Unboxed::Number(old) => match fitted(kind, old.number as i128) {
            Some(number) => Some(Unboxed::Number(Number { kind, number })),
            None => None,
        },
        Unboxed::Variable(_) => None,
    }
}

/// What an operator gives that takes one operand.
#[inline(always)]
pub(crate) fn of_one(operator: Operator, operand: Unboxed, store: &Store) -> Option<Unboxed>
    ensures { (cs : List trees.Class) → Tells result (apply cs operator (boxed operand ∷ [])) store.now }
{
    match operator {
        Operator::Read => read(operand, store),
        Operator::Convert(Sort::Number(kind)) => converted(kind, operand),
        _ => None,
    }
}

/// What an operator gives of two numbers.
#[inline(always)]
#[tactic(auto, using(crate::proofs::Gives::numbers_given))]
fn of_numbers(operator: IntOperator, kind: IntKind, x: Unboxed, y: Unboxed) -> Option<Unboxed>
    ensures { (cs : List trees.Class) (s : stores.Store) →
        Tells result (apply cs (operators.Binary operator (sorts.Number kind)) (boxed x ∷ boxed y ∷ [])) s }
{
    let Unboxed::Number(x) = x else {
        return None;
    };
    let Unboxed::Number(y) = y else {
        return None;
    };
    match operated(operator, kind, x.number, y.number) {
        Some(number) => Some(Unboxed::Number(Number {
            kind: kind_of_result(operator, kind),
            number,
        })),
        None => None,
    }
}

/// A variable gets a number, which is given.
#[inline(always)]
#[tactic(auto, using(crate::proofs::Gives::number_kept))]
fn kept(value: Unboxed, place: Unboxed, store: &mut Store) -> Option<Unboxed>
    ensures { (cs : List trees.Class) →
        Gave result (apply cs operators.Keep (boxed value ∷ boxed place ∷ [])) store.old store.new }
{
    let Unboxed::Number(new) = value else {
        return None;
    };
    let Unboxed::Variable(root) = place else {
        return None;
    };
    if put_number(new, root, store) {
        Some(value)
    } else {
        None
    }
}

/// What an operator gives that takes two operands.
#[inline(always)]
#[tactic(auto, using(crate::proofs::Gives::told_given))]
pub(crate) fn of_two(
    operator: Operator,
    first: Unboxed,
    second: Unboxed,
    store: &mut Store,
) -> Option<Unboxed>
    ensures { (cs : List trees.Class) →
        Gave result (apply cs operator (boxed first ∷ boxed second ∷ [])) store.old store.new }
{
    match operator {
        Operator::Binary(operator, Sort::Number(kind)) => of_numbers(operator, kind, first, second),
        Operator::Keep => kept(first, second, store),
        _ => None,
    }
}
