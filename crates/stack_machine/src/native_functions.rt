//! The native functions that a program calls.
ghost use Rattle.std.specs.Prelude.{ℕ, map};
ghost use Rattle.mql_meaning.specs.Calls.{calls_native};
ghost use Rattle.stack_world.specs.Acts.{Acts};
ghost use Rattle.store_frames.specs.Operands.{shown};

use fx8::ItemList;
use mql_mean::Value;
use mql_meaning::Store;
use natives::Native;
use stack_world::Halt;
use std::alloc::Global;
use store_frames::Operand;

/// The native functions of a running program, and the world that they ask.
pub trait NativeFunctions {
    ghost use Rattle.mql_mean.specs.declared.host.HostCall.{HostCall};
    ghost use Rattle.mql_mean.specs.Answer.{Answer};

    /// From one state of the world, a call may get an answer and lead to another state.
    ghost answers: { Self → HostCall → Answer → Self → Type 0 };

    /// Calls a native function with its operands. Where there was no memory nothing is said of the store and of
    /// the world.
    fn call(
        &mut self,
        alloc: Global,
        native: Native,
        operands: ItemList<Operand>,
        store: &mut Store,
    ) -> Result<Value, Halt>
        ensures { (n : ℕ) → Acts answers (calls_native native (map shown operands)) result n
            store.old store.new self.old self.new };
}
