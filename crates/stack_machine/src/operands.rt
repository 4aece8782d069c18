//! Operands that are taken and given.
ghost use Rattle.std.specs.Prelude.{map};
ghost use Rattle.mql_meaning.specs.Operators as operators;
ghost use Rattle.stack_code.specs.Machine.{returned, taking, upon};
ghost use Rattle.stack_machine.specs.Operands.{Gave, Takes, Tells, Took, tested};
ghost use Rattle.store_frames.specs.Operands.{shown};

use crate::ends::{End, Fault};
use fx8::{IntKind, ItemList, Stack};
use mql_mean::Value;
use std::alloc::Global;
use store_frames::Operand;

/// Takes so many operands, of which the last one was topmost.
pub fn take(
    alloc: Global,
    operands: &mut Stack<Operand>,
    count: u64,
) -> Result<ItemList<Operand>, Fault>
    ensures { Takes result (taking count (map shown operands.old)) (map shown operands.new) }
{
    match stack_effects::take(alloc, count, operands) {
        Ok(Some(taken)) => Ok(taken),
        Ok(None) => Err(Fault::End(End::Stuck)),
        Err(_) => Err(Fault::OutOfMemory),
    }
}

/// Whether a value holds as a condition; `None` exactly where it is no number.
fn holds(value: &Value) -> Option<bool>
    ensures { Tells result (operators.holds value.now) }
{
    match value {
        Value::Num(_, number) => Some(*number != 0),
        _ => None,
    }
}

/// Takes a condition; `None` exactly where there is none.
pub fn condition(operands: &mut Stack<Operand>) -> Option<bool>
    ensures { Took result (tested (map shown operands.old)) (map shown operands.new) }
{
    match operands.pop() {
        Some(Operand::Value(value)) => holds(&value),
        _ => None,
    }
}

/// Takes the value that a function returns, or makes the one of a function that gives none; `None` exactly
/// where there is none to take.
pub fn returned(gives: bool, operands: &mut Stack<Operand>) -> Option<Value>
    ensures { Took result (returned gives (map shown operands.old)) (map shown operands.new) }
{
    if !gives {
        return Some(Value::Num(IntKind::Int, 0));
    }
    match operands.pop() {
        Some(Operand::Value(value)) => Some(value),
        _ => None,
    }
}

/// Puts a value on top, where one is given.
pub fn give(gives: bool, value: Value, operands: &mut Stack<Operand>) -> Result<(), Fault>
    ensures { Gave result (upon gives value (map shown operands.old)) (map shown operands.new) }
{
    if !gives {
        return Ok(());
    }
    match operands.push(Operand::Value(value)) {
        Ok(()) => Ok(()),
        Err(_) => Err(Fault::OutOfMemory),
    }
}
