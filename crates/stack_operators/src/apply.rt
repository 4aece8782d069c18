//! Operators on operands: variables, fields, elements, objects, assignments, values.
ghost use Rattle.std.specs.Prelude.{List, [], ◌∷◌};
ghost use Rattle.mql_mean.specs.declared.value.Value as values;
ghost use Rattle.mql_meaning.specs.declared.place.Place as places;
ghost use Rattle.mql_meaning.specs.declared.store.Store as stores;
ghost use Rattle.mql_meaning.specs.declared.tree.Class as trees;
ghost use Rattle.mql_meaning.specs.Apply.{apply};
ghost use Rattle.mql_meaning.specs.Changes.{Out, after, give};
ghost use Rattle.mql_meaning.specs.Operands as meaning;
ghost use Rattle.store_cells.specs.Changes.{Does, Gives, Leads};
ghost use Rattle.store_frames.specs.Operands.{shown};
ghost use Rattle.stack_operators.specs.Answers.{answered};

use crate::casts::cast;
use crate::updates::{bump_at, keep, update};
use crate::values::{binary, unary_of};
use mql_mean::Value;
use mql_meaning::{Class, Operator, Place, Root, Store};
use std::alloc::Global;
use store_cells::{End, Fault};
use store_frames::Operand;
use store_places::{
    at_root, field_place, index, local_place, pointed, pointer_of, read, this_place,
};
use store_values::convert;

/// A value as an operand.
fn valued(answer: Result<Value, Fault>) -> Result<Operand, Fault>
    ensures { (out : Out values.Value) (store : stores.Store) → Leads out answer store →
        Leads (after out (λ v. give (meaning.Val v))) (answered result) store }
{
    match answer {
        Ok(value) => Ok(Operand::Value(value)),
        Err(fault) => Err(fault),
    }
}

/// A place as an operand.
fn placed(answer: Result<Place, Fault>) -> Result<Operand, Fault>
    ensures { (out : Out places.Place) (store : stores.Store) → Leads out answer store →
        Leads (after out (λ p. give (meaning.At p))) (answered result) store }
{
    match answer {
        Ok(place) => Ok(Operand::Place(place)),
        Err(fault) => Err(fault),
    }
}

/// What an operator gives that takes no operand.
pub fn on_none(alloc: Global, operator: Operator, store: &Store) -> Result<Operand, Fault>
    ensures { (cs : List trees.Class) → Gives (apply cs operator []) (answered result) store.now }
{
    match operator {
        Operator::Local(local) => placed(local_place(alloc, local, store)),
        Operator::Global(global) => Ok(Operand::Place(at_root(alloc, Root::Global(global)))),
        Operator::This => placed(this_place(alloc, store)),
        _ => Err(Fault::End(End::Stuck)),
    }
}

fn of_value(
    alloc: Global,
    classes: &[Class],
    operator: Operator,
    value: Value,
    store: &Store,
) -> Result<Operand, Fault>
    ensures { Gives (apply classes.now operator (meaning.Val value ∷ [])) (answered result) store.now }
{
    match operator {
        Operator::Object => placed(pointed(alloc, &value, store)),
        Operator::Unary(unary, sort) => valued(unary_of(unary, sort, &value, store)),
        Operator::Convert(sort) => valued(convert(alloc, sort, value, store)),
        Operator::Cast(class, strict) => valued(cast(classes, class, strict, value, store)),
        _ => Err(Fault::End(End::Stuck)),
    }
}

fn of_place(
    alloc: Global,
    classes: &[Class],
    operator: Operator,
    place: Place,
    store: &mut Store,
) -> Result<Operand, Fault>
    ensures { Does (apply classes.now operator (meaning.At place ∷ [])) (answered result)
        store.old store.new }
{
    match operator {
        Operator::Field(field) => Ok(Operand::Place(field_place(field as u64, place)?)),
        Operator::Read => valued(read(alloc, &place, store)),
        Operator::PointerOf => valued(pointer_of(&place, store)),
        Operator::Bump(bump) => valued(bump_at(alloc, bump, &place, store)),
        _ => Err(Fault::End(End::Stuck)),
    }
}

/// What an operator gives that takes one operand, and what it makes of the store. Where there was no memory
/// nothing is said of the store.
pub fn on_one(
    alloc: Global,
    classes: &[Class],
    operator: Operator,
    operand: Operand,
    store: &mut Store,
) -> Result<Operand, Fault>
    ensures { Does (apply classes.now operator (shown operand ∷ [])) (answered result)
        store.old store.new }
{
    match operand {
        Operand::Value(value) => of_value(alloc, classes, operator, value, store),
        Operand::Place(place) => of_place(alloc, classes, operator, place, store),
    }
}

fn of_values(operator: Operator, x: Value, y: Value, store: &Store) -> Result<Operand, Fault>
    ensures { (cs : List trees.Class) → Gives (apply cs operator (meaning.Val x ∷ meaning.Val y ∷ []))
        (answered result) store.now }
{
    match operator {
        Operator::Binary(binary_operator, sort) => {
            valued(binary(binary_operator, sort, x, y, store))
        }
        _ => Err(Fault::End(End::Stuck)),
    }
}

fn to_place(
    alloc: Global,
    operator: Operator,
    value: Value,
    place: &Place,
    store: &mut Store,
) -> Result<Operand, Fault>
    ensures { (cs : List trees.Class) →
        Does (apply cs operator (meaning.Val value ∷ meaning.At place.now ∷ []))
        (answered result) store.old store.new }
{
    match operator {
        Operator::Keep => valued(keep(alloc, value, place, store)),
        Operator::Update(by, sort) => valued(update(alloc, by, sort, value, place, store)),
        _ => Err(Fault::End(End::Stuck)),
    }
}

fn of_array(operator: Operator, place: Place, at: &Value, store: &Store) -> Result<Operand, Fault>
    ensures { (cs : List trees.Class) →
        Gives (apply cs operator (meaning.At place ∷ meaning.Val at.now ∷ []))
        (answered result) store.now }
{
    match operator {
        Operator::Index => placed(index(place, at, store)),
        _ => Err(Fault::End(End::Stuck)),
    }
}

/// What an operator gives that takes two operands, and what it makes of the store. Where there was no memory
/// nothing is said of the store.
#[tactic(auto, using(crate::proofs::Applied::two_places))]
pub fn on_two(
    alloc: Global,
    operator: Operator,
    first: Operand,
    second: Operand,
    store: &mut Store,
) -> Result<Operand, Fault>
    ensures { (cs : List trees.Class) → Does (apply cs operator (shown first ∷ shown second ∷ []))
        (answered result) store.old store.new }
{
    match first {
        Operand::Value(x) => match second {
            Operand::Value(y) => of_values(operator, x, y, store),
            Operand::Place(place) => to_place(alloc, operator, x, &place, store),
        },
        Operand::Place(place) => match second {
            Operand::Value(at) => of_array(operator, place, &at, store),
            Operand::Place(_) => Err(Fault::End(End::Stuck)),
        },
    }
}
