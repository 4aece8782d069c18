//! Instructions that go on in the function in force.
ghost use Rattle.std.specs.Prelude.{◌≡◌, ◌+◌, ◌<◌, ◌^◌, ℕ, OnSome};
ghost use Rattle.stack_code.specs.Machine as m;
ghost use Rattle.stack_machine.specs.Steps.{Acts};

use crate::ends::{End, Fault, faulted};
use crate::operands::condition;
use crate::state::State;
use mql_meaning::VarType;
use stack_code::{Code, Effect, Instruction};
use stack_effects::does_effect;
use std::alloc::Global;

/// The instruction at a place of a function.
pub fn fetch(code: &Code, function: u32, place: u64) -> Option<Instruction>
    ensures within { OnSome result (place + 1 < 2 ^ 64) }
    ensures value { result ≡ m.fetch code.now function place }
{
    let function = code.functions.at(function as u64)?;
    if place >= function.instructions.len() {
        return None;
    }
    function.instructions.at(place).copied()
}

/// The place of a label of a function.
pub(crate) fn label_at(code: &Code, function: u32, label: u32) -> Option<u64>
    ensures { result ≡ m.label_at code.now function label }
{
    let function = code.functions.at(function as u64)?;
    let label = function.labels.at(label as u64)?;
    Some(label.place as u64)
}

/// The types of the locals of a function.
fn locals_of(code: &Code, function: u32) -> &[VarType]
    ensures { result.now ≡ m.locals_of (m.function_at code.now function) }
{
    match code.functions.at(function as u64) {
        Some(function) => function.locals.as_slice(),
        None => &[],
    }
}

/// Spends a step, where one is left.
pub fn spend(code: &Code, state: &mut State, steps: &mut u64) -> Result<(), Fault>
    requires { state.old.place + 1 < 2 ^ 64 }
    ensures { Acts code.now Instruction.Step state.old steps.old result state.new steps.new }
{
    if *steps == 0 {
        return Err(Fault::End(End::Exhausted));
    }
    *steps -= 1;
    state.place += 1;
    Ok(())
}

/// Goes on at a label.
pub fn jump(code: &Code, state: &mut State, label: u32) -> Result<(), Fault>
    ensures { (n : ℕ) → Acts code.now (Instruction.Jump label) state.old n result state.new n }
{
    match label_at(code, state.function, label) {
        Some(place) => {
            state.place = place;
            Ok(())
        }
        None => Err(Fault::End(End::Stuck)),
    }
}

/// Takes a condition, and goes on at a label where it does not hold.
pub fn unless(code: &Code, state: &mut State, label: u32) -> Result<(), Fault>
    requires { state.old.place + 1 < 2 ^ 64 }
    ensures { (n : ℕ) → Acts code.now (Instruction.Unless label) state.old n result state.new n }
{
    let Some(holds) = condition(&mut state.operands) else {
        return Err(Fault::End(End::Stuck));
    };
    if holds {
        state.place += 1;
        Ok(())
    } else {
        jump(code, state, label)
    }
}

/// Works on the operands and the store alone.
pub fn plain(alloc: Global, code: &Code, what: Effect, state: &mut State) -> Result<(), Fault>
    requires { state.old.place + 1 < 2 ^ 64 }
    ensures { (n : ℕ) → Acts code.now (Instruction.Plain what) state.old n result state.new n }
{
    let locals = locals_of(code, state.function);
    match does_effect(
        alloc,
        code,
        locals,
        what,
        &mut state.operands,
        &mut state.store,
    ) {
        Ok(()) => {
            state.place += 1;
            Ok(())
        }
        Err(fault) => Err(faulted(fault)),
    }
}
