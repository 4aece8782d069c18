//! One instruction.
ghost use Rattle.stack_code.specs.Paced.{Paced};
ghost use Rattle.stack_machine.specs.Pace.{Nearer};
ghost use Rattle.stack_machine.specs.Steps.{Steps};

use crate::asks::ask;
use crate::calls::{call, give_back};
use crate::ends::{End, Fault};
use crate::flow::{fetch, jump, plain, spend, unless};
use crate::native_functions::NativeFunctions;
use crate::state::State;
use stack_code::{Code, Instruction};
use std::alloc::Global;

/// One instruction.
pub fn step<W: NativeFunctions>(
    alloc: Global,
    code: &Code,
    state: &mut State,
    steps: &mut u64,
    world: &mut W,
) -> Result<(), Fault>
    requires { Paced code.now }
    ensures does { Steps W.answers code.now state.old steps.old world.old result state.new steps.new
        world.new }
    ensures nearer { Nearer code.now result state.old steps.old state.new steps.new }
{
    match fetch(code, state.function, state.place) {
        None => Err(Fault::End(End::Stuck)),
        Some(Instruction::Plain(what)) => plain(alloc, code, what, state),
        Some(Instruction::Jump(label)) => jump(code, state, label),
        Some(Instruction::Unless(label)) => unless(code, state, label),
        Some(Instruction::Step) => spend(code, state, steps),
        Some(Instruction::Call(function)) => call(alloc, code, function, state),
        Some(Instruction::Native(native, count)) => ask(alloc, code, native, count, state, world),
        Some(Instruction::Return) => give_back(code, state),
    }
}
