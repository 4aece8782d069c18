//! Instructions on operands that take no memory, on top of those of a running machine: each does the whole
//! instruction, or nothing.
ghost use Rattle.std.specs.Prelude.{◌+◌, ◌<◌, ◌^◌, Ok};
ghost use Rattle.stack_code.specs.declared.code.Instruction.TheVariants as instructions;
ghost use Rattle.stack_code.specs.Paced.{Paced};
ghost use Rattle.stack_machine.specs.Quick.{Acted, Went};

use crate::flow::{fetch, label_at};
use crate::state::State;
use fx8::{OutOfMemory, Stack};
use stack_code::{Code, Effect, Instruction};
use stack_unboxed::{Unboxed, does_unboxed};

/// Works on the operands and the store alone.
#[inline(always)]
fn plain(
    code: &Code,
    effect: Effect,
    state: &mut State,
    top: &mut Stack<Unboxed>,
    steps: &u64,
) -> Result<bool, OutOfMemory>
    requires { state.old.place + 1 < 2 ^ 64 }
    ensures { Acted code.now (instructions.Plain effect) result state.old top.old steps.now state.new top.new
        steps.now }
{
    if does_unboxed(code, effect, top, &mut state.store)? {
        state.place += 1;
        Ok(true)
    } else {
        Ok(false)
    }
}

/// Goes on at a label.
#[inline(always)]
fn jump(code: &Code, label: u32, state: &mut State, top: &Stack<Unboxed>, steps: &u64) -> bool
    ensures { Acted code.now (instructions.Jump label) (Ok result) state.old top.now steps.now state.new
        top.now steps.now }
{
    match label_at(code, state.function, label) {
        Some(place) => {
            state.place = place;
            true
        }
        None => false,
    }
}

/// Takes a condition, and goes on at a label where it does not hold.
#[inline(always)]
fn unless(
    code: &Code,
    label: u32,
    state: &mut State,
    top: &mut Stack<Unboxed>,
    steps: &u64,
) -> Result<bool, OutOfMemory>
    requires { state.old.place + 1 < 2 ^ 64 }
    ensures { Acted code.now (instructions.Unless label) result state.old top.old steps.now state.new top.new
        steps.now }
{
    let Some(place) = label_at(code, state.function, label) else {
        return Ok(false);
    };
    match top.pop() {
        Some(Unboxed::Number(condition)) => {
            if condition.number != 0 {
                state.place += 1;
            } else {
                state.place = place;
            }
            Ok(true)
        }
        Some(Unboxed::Variable(root)) => {
            top.push(Unboxed::Variable(root))?;
            Ok(false)
        }
        None => Ok(false),
    }
}

/// Spends a step, where one is left.
#[inline(always)]
fn spend(code: &Code, state: &mut State, top: &Stack<Unboxed>, steps: &mut u64) -> bool
    requires { state.old.place + 1 < 2 ^ 64 }
    ensures { Acted code.now instructions.Step (Ok result) state.old top.now steps.old state.new top.now
        steps.new }
{
    if *steps == 0 {
        return false;
    }
    *steps -= 1;
    state.place += 1;
    true
}

/// What an instruction does: the whole of it, or nothing.
#[inline(always)]
fn act(
    code: &Code,
    instruction: Instruction,
    state: &mut State,
    top: &mut Stack<Unboxed>,
    steps: &mut u64,
) -> Result<bool, OutOfMemory>
    requires { state.old.place + 1 < 2 ^ 64 }
    ensures { Acted code.now instruction result state.old top.old steps.old state.new top.new steps.new }
{
    match instruction {
        Instruction::Plain(effect) => plain(code, effect, state, top, steps),
        Instruction::Jump(label) => Ok(jump(code, label, state, top, steps)),
        Instruction::Unless(label) => unless(code, label, state, top, steps),
        Instruction::Step => Ok(spend(code, state, top, steps)),
        Instruction::Call(_) => Ok(false),
        Instruction::Native(_, _) => Ok(false),
        Instruction::Return => Ok(false),
    }
}

/// One instruction, or nothing.
#[inline(always)]
pub(crate) fn advance(
    code: &Code,
    state: &mut State,
    top: &mut Stack<Unboxed>,
    steps: &mut u64,
) -> Result<bool, OutOfMemory>
    requires { Paced code.now }
    ensures { Went code.now result state.old top.old steps.old state.new top.new steps.new }
{
    match fetch(code, state.function, state.place) {
        Some(instruction) => act(code, instruction, state, top, steps),
        None => Ok(false),
    }
}
