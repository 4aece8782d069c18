//! Effects of instructions.
ghost use Rattle.std.specs.Prelude.{List};
ghost use Rattle.mql_meaning.specs.declared.types.VarType as types;
ghost use Rattle.stack_code.specs.declared.code.Effect.TheVariants as effects;
ghost use Rattle.stack_code.specs.Machine as machine;
ghost use Rattle.stack_effects.specs.Works.{Works};

use crate::constants::{constant, copied_operand};
use crate::operands::apply;
use crate::writes::{copies, writes};
use fx8::Stack;
use mql_meaning::{Store, VarType};
use stack_code::{Code, Effect};
use std::alloc::Global;
use store_cells::{End, Fault};
use store_frames::{Operand, reset};
use store_places::set_line;

/// Puts the constant of a number on top.
fn do_constant(
    alloc: Global,
    code: &Code,
    number: u32,
    operands: &mut Stack<Operand>,
    store: &Store,
) -> Result<(), Fault>
    ensures { (ts : List types.VarType) → Works (machine.does_effect code.now ts (effects.Constant number))
        result operands.old operands.new store.now store.now }
{
    let Some(value) = code.constants.at(number as u64) else {
        return Err(Fault::End(End::Stuck));
    };
    match constant(alloc, value, store) {
        Ok(value) => Ok(operands.push(Operand::Value(value))?),
        Err(fault) => Err(fault),
    }
}

/// Takes a value and a place, which gets the value.
fn do_write(
    alloc: Global,
    code: &Code,
    operands: &mut Stack<Operand>,
    store: &mut Store,
) -> Result<(), Fault>
    ensures { (ts : List types.VarType) → Works (machine.does_effect code.now ts effects.Write)
        result operands.old operands.new store.old store.new }
{
    let Some(place) = operands.pop() else {
        return Err(Fault::End(End::Stuck));
    };
    let Some(value) = operands.pop() else {
        return Err(Fault::End(End::Stuck));
    };
    writes(alloc, value, place, store)
}

/// Takes two places; the second gets the value of the first.
fn do_copy(
    alloc: Global,
    code: &Code,
    operands: &mut Stack<Operand>,
    store: &mut Store,
) -> Result<(), Fault>
    ensures { (ts : List types.VarType) → Works (machine.does_effect code.now ts effects.Copy)
        result operands.old operands.new store.old store.new }
{
    let Some(to) = operands.pop() else {
        return Err(Fault::End(End::Stuck));
    };
    let Some(from) = operands.pop() else {
        return Err(Fault::End(End::Stuck));
    };
    copies(alloc, from, to, store)
}

/// Takes an operand.
fn do_drop(code: &Code, operands: &mut Stack<Operand>, store: &Store) -> Result<(), Fault>
    ensures { (ts : List types.VarType) → Works (machine.does_effect code.now ts effects.Drop)
        result operands.old operands.new store.now store.now }
{
    match operands.pop() {
        Some(_) => Ok(()),
        None => Err(Fault::End(End::Stuck)),
    }
}

/// Puts the topmost operand on top once more.
fn do_twice(
    alloc: Global,
    code: &Code,
    operands: &mut Stack<Operand>,
    store: &Store,
) -> Result<(), Fault>
    ensures { (ts : List types.VarType) → Works (machine.does_effect code.now ts effects.Twice)
        result operands.old operands.new store.now store.now }
{
    let Some(operand) = operands.pop() else {
        return Err(Fault::End(End::Stuck));
    };
    let copy = copied_operand(alloc, &operand)?;
    operands.push(operand)?;
    Ok(operands.push(copy)?)
}

/// What an instruction does to the operands, the topmost first, and to the store, in a function with these
/// locals. Where there was no memory nothing is said of them.
pub fn does_effect(
    alloc: Global,
    code: &Code,
    locals: &[VarType],
    effect: Effect,
    operands: &mut Stack<Operand>,
    store: &mut Store,
) -> Result<(), Fault>
    ensures { Works (machine.does_effect code.now locals.now effect)
        result operands.old operands.new store.old store.new }
{
    match effect {
        Effect::Constant(number) => do_constant(alloc, code, number, operands, store),
        Effect::Apply(operator) => {
            apply(alloc, code.classes.as_slice(), operator, operands, store)
        }
        Effect::Write => do_write(alloc, code, operands, store),
        Effect::Copy => do_copy(alloc, code, operands, store),
        Effect::Drop => do_drop(code, operands, store),
        Effect::Twice => do_twice(alloc, code, operands, store),
        Effect::Line(line) => set_line(line, store),
        Effect::Reset(first, end) => {
            reset(alloc, code.classes.as_slice(), first, end, locals, store)
        }
    }
}
