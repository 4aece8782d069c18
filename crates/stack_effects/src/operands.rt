//! Operators on the topmost operands.
ghost use Rattle.std.specs.Prelude.{List};
ghost use Rattle.mql_meaning.specs.declared.tree.Class as trees;
ghost use Rattle.stack_code.specs.Machine.{operands_of};
ghost use Rattle.stack_effects.specs.Works.{Works, applies};

use fx8::Stack;
use mql_meaning::{Class, Operator, Store};
use stack_operators::{on_none, on_one, on_two};
use std::alloc::Global;
use store_cells::{End, Fault};
use store_frames::Operand;

/// An operator that takes no operand: what it gives is put on top.
fn apply_none(
    alloc: Global,
    operator: Operator,
    operands: &mut Stack<Operand>,
    store: &Store,
) -> Result<(), Fault>
    ensures { (cs : List trees.Class) →
        Works (applies 0 cs operator) result operands.old operands.new store.now store.now }
{
    match on_none(alloc, operator, store) {
        Ok(operand) => Ok(operands.push(operand)?),
        Err(fault) => Err(fault),
    }
}

/// An operator that takes the topmost operand: what it gives is put in its place.
fn apply_one(
    alloc: Global,
    classes: &[Class],
    operator: Operator,
    operands: &mut Stack<Operand>,
    store: &mut Store,
) -> Result<(), Fault>
    ensures { Works (applies 1 classes.now operator) result operands.old operands.new store.old store.new }
{
    let Some(operand) = operands.pop() else {
        return Err(Fault::End(End::Stuck));
    };
    match on_one(alloc, classes, operator, operand, store) {
        Ok(operand) => Ok(operands.push(operand)?),
        Err(fault) => Err(fault),
    }
}

/// An operator that takes the two topmost operands: what it gives is put in their place.
fn apply_two(
    alloc: Global,
    operator: Operator,
    operands: &mut Stack<Operand>,
    store: &mut Store,
) -> Result<(), Fault>
    ensures { (cs : List trees.Class) →
        Works (applies 2 cs operator) result operands.old operands.new store.old store.new }
{
    let Some(second) = operands.pop() else {
        return Err(Fault::End(End::Stuck));
    };
    let Some(first) = operands.pop() else {
        return Err(Fault::End(End::Stuck));
    };
    match on_two(alloc, operator, first, second, store) {
        Ok(operand) => Ok(operands.push(operand)?),
        Err(fault) => Err(fault),
    }
}

/// An operator on the topmost operands: it takes as many as it has, and what it gives is put in their place.
/// Where there was no memory nothing is said of the operands or of the store.
pub fn apply(
    alloc: Global,
    classes: &[Class],
    operator: Operator,
    operands: &mut Stack<Operand>,
    store: &mut Store,
) -> Result<(), Fault>
    ensures { Works (applies (operands_of operator) classes.now operator)
        result operands.old operands.new store.old store.new }
{
    match operator {
        Operator::Local(_) => apply_none(alloc, operator, operands, store),
        Operator::Global(_) => apply_none(alloc, operator, operands, store),
        Operator::This => apply_none(alloc, operator, operands, store),
        Operator::Field(_) => apply_one(alloc, classes, operator, operands, store),
        Operator::Index => apply_two(alloc, operator, operands, store),
        Operator::Object => apply_one(alloc, classes, operator, operands, store),
        Operator::Read => apply_one(alloc, classes, operator, operands, store),
        Operator::PointerOf => apply_one(alloc, classes, operator, operands, store),
        Operator::Keep => apply_two(alloc, operator, operands, store),
        Operator::Update(_, _) => apply_two(alloc, operator, operands, store),
        Operator::Bump(_) => apply_one(alloc, classes, operator, operands, store),
        Operator::Unary(_, _) => apply_one(alloc, classes, operator, operands, store),
        Operator::Binary(_, _) => apply_two(alloc, operator, operands, store),
        Operator::Convert(_) => apply_one(alloc, classes, operator, operands, store),
        Operator::Cast(_, _) => apply_one(alloc, classes, operator, operands, store),
    }
}
