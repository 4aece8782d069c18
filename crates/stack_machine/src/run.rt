//! Runs.
ghost use Rattle.std.specs.Prelude.{◌≡◌, IfOk, []};
ghost use Rattle.stack_machine.specs.Ends.{as_ended};
ghost use Rattle.stack_code.specs.Paced.{Paced};
ghost use Rattle.stack_machine.specs.Steps.{Run, on, over};

use crate::ends::{End, Fault};
use crate::hurry::hurry;
use crate::native_functions::NativeFunctions;
use crate::state::State;
use crate::step::step;
use fx8::{OutOfMemory, Stack};
use stack_code::Code;
use std::alloc::Global;

/// Runs from a place of the code to an end.
pub fn run<W: NativeFunctions>(
    alloc: Global,
    code: &Code,
    state: &mut State,
    steps: &mut u64,
    world: &mut W,
) -> Result<End, OutOfMemory>
    requires { Paced code.now }
    ensures { IfOk result (λ e. Run W.answers code.now (λ answers. on state.old steps.old [] answers)
        world.old world.new (over (as_ended e) state.new.store steps.new)) }
{
    let mut top = Stack::new(alloc);
    'run: loop {
        hurry(alloc, code, state, &mut top, steps)?;
        match step(alloc, code, state, steps, world) {
            Ok(()) => {}
            Err(Fault::End(end)) => return Ok(end),
            Err(Fault::OutOfMemory) => return Err(OutOfMemory),
        }
    }
}
