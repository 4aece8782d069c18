//! The native functions of a test without an account.

use crate::world::TesterWorld;
use fx8::ItemList;
use mql_mean::Value;
use mql_meaning::Store;
use native_calls::call_native;
use natives::Native;
use stack_machine::NativeFunctions;
use stack_world::Halt;
use std::alloc::Global;
use store_frames::Operand;

impl NativeFunctions for TesterWorld {
    ghost use Rattle.tester_world.specs.World.{TesterStep};

    ghost answers = { TesterStep };

    fn call(
        &mut self,
        alloc: Global,
        native: Native,
        operands: ItemList<Operand>,
        store: &mut Store,
    ) -> Result<Value, Halt> {
        call_native(alloc, native, operands, store, self)
    }
}
