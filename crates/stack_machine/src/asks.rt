//! Native functions.
ghost use Rattle.std.specs.Prelude.{◌≡◌, ◌+◌, ◌<◌, ◌^◌, ℕ, Some};
ghost use Rattle.mql_meaning.specs.Calls.{native_void};
ghost use Rattle.stack_code.specs.Machine as m;
ghost use Rattle.stack_machine.specs.Steps.{Follows, Steps};

use crate::ends::{Fault, halted};
use crate::native_functions::NativeFunctions;
use crate::operands::{give, take};
use crate::state::State;
use natives::{Native, ResultType};
use stack_code::{Code, Instruction};
use std::alloc::Global;

/// Whether a native function gives no value.
fn is_void(native: Native) -> bool
    ensures { result ≡ native_void native }
{
    match native.result() {
        ResultType::Void => true,
        _ => false,
    }
}

/// Takes so many arguments, calls a native function and puts its value on top, if it gives one.
pub fn ask<W: NativeFunctions>(
    alloc: Global,
    code: &Code,
    native: Native,
    count: u32,
    state: &mut State,
    world: &mut W,
) -> Result<(), Fault>
    requires place { state.old.place + 1 < 2 ^ 64 }
    requires here { m.fetch code.now state.old.function state.old.place ≡ Some
        (Instruction.Native native count) }
    ensures follows { Follows result state.old state.new }
    ensures does { (n : ℕ) → Steps W.answers code.now state.old n world.old result state.new n world.new }
{
    let operands = match take(alloc, &mut state.operands, count as u64) {
        Ok(operands) => operands,
        Err(fault) => return Err(fault),
    };
    match world.call(alloc, native, operands, &mut state.store) {
        Ok(value) => {
            state.place += 1;
            give(!is_void(native), value, &mut state.operands)
        }
        Err(halt) => Err(halted(halt)),
    }
}
