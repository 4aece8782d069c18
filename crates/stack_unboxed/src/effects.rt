//! Effects on operands that take no memory: each does the whole effect, or nothing.
ghost use Rattle.std.specs.Prelude.{◌≡◌, List, Ok};
ghost use Rattle.mql_meaning.specs.declared.tree.Class as trees;
ghost use Rattle.mql_meaning.specs.declared.types.VarType as types;
ghost use Rattle.mql_meaning.specs.Places.{set_line};
ghost use Rattle.stack_code.specs.declared.code.Effect.TheVariants as effects;
ghost use Rattle.stack_code.specs.Machine as machine;
ghost use Rattle.stack_code.specs.Machine.{operands_of};
ghost use Rattle.stack_effects.specs.Works.{applies};
ghost use Rattle.stack_unboxed.specs.Unboxed.{Did, Made, Told};
ghost use Rattle.std.specs.Prelude.{slice_get};

use crate::operators::{given, of_one, of_two};
use crate::unboxed::{Number, Unboxed};
use crate::variables::number_of;
use fx8::{OutOfMemory, Stack};
use mql_meaning::{Operator, Sort, Store};
use stack_code::{Code, Effect};
use store_cells::Fault;

/// An operator that takes no operand.
#[inline(always)]
#[tactic(auto, using(crate::proofs::Gives::none_did))]
fn apply_none(
    operator: Operator,
    top: &mut Stack<Unboxed>,
    store: &Store,
) -> Result<bool, OutOfMemory>
    ensures { (cs : List trees.Class) →
        Did (applies 0 cs operator) result top.old top.new store.now store.now }
{
    match given(operator, store) {
        Some(operand) => {
            top.push(operand)?;
            Ok(true)
        }
        None => Ok(false),
    }
}

/// An operator that takes the topmost operand.
#[inline(always)]
#[tactic(auto, using(crate::proofs::Gives::one_did))]
fn apply_one(
    operator: Operator,
    top: &mut Stack<Unboxed>,
    store: &Store,
) -> Result<bool, OutOfMemory>
    ensures { (cs : List trees.Class) →
        Did (applies 1 cs operator) result top.old top.new store.now store.now }
{
    let Some(operand) = top.pop() else {
        return Ok(false);
    };
    match of_one(operator, operand, store) {
        Some(operand) => {
            top.push(operand)?;
            Ok(true)
        }
        None => {
            top.push(operand)?;
            Ok(false)
        }
    }
}

/// An operator that takes the two topmost operands.
#[inline(always)]
#[tactic(auto, using(crate::proofs::Gives::two_did))]
fn apply_two(
    operator: Operator,
    top: &mut Stack<Unboxed>,
    store: &mut Store,
) -> Result<bool, OutOfMemory>
    ensures { (cs : List trees.Class) →
        Did (applies 2 cs operator) result top.old top.new store.old store.new }
{
    let Some(second) = top.pop() else {
        return Ok(false);
    };
    let Some(first) = top.pop() else {
        top.push(second)?;
        return Ok(false);
    };
    match of_two(operator, first, second, store) {
        Some(operand) => {
            top.push(operand)?;
            Ok(true)
        }
        None => {
            top.push(first)?;
            top.push(second)?;
            Ok(false)
        }
    }
}

/// An operator on the topmost operands.
#[inline(always)]
fn apply(
    operator: Operator,
    top: &mut Stack<Unboxed>,
    store: &mut Store,
) -> Result<bool, OutOfMemory>
    ensures { (cs : List trees.Class) →
        Did (applies (operands_of operator) cs operator) result top.old top.new store.old store.new }
{
    match operator {
        Operator::Local(_) => apply_none(operator, top, store),
        Operator::Global(_) => apply_none(operator, top, store),
        Operator::Read => apply_one(operator, top, store),
        Operator::Convert(_) => apply_one(operator, top, store),
        Operator::Keep => apply_two(operator, top, store),
        Operator::Binary(_, _) => apply_two(operator, top, store),
        _ => Ok(false),
    }
}

/// The number that a constant is, where it fits 64 bits.
#[inline(always)]
fn constant(code: &Code, number: u32) -> Option<Number>
    ensures { Told result (slice_get code.now.constants number) }
{
    number_of(code.constants.at(number as u64)?)
}

/// Puts a constant on top.
#[inline(always)]
#[tactic(auto, using(crate::proofs::Gives::constant_did))]
fn do_constant(
    code: &Code,
    number: u32,
    top: &mut Stack<Unboxed>,
    store: &Store,
) -> Result<bool, OutOfMemory>
    ensures { (ts : List types.VarType) → Did (machine.does_effect code.now ts (effects.Constant number))
        result top.old top.new store.now store.now }
{
    match constant(code, number) {
        Some(number) => {
            top.push(Unboxed::Number(number))?;
            Ok(true)
        }
        None => Ok(false),
    }
}

/// Takes an operand.
#[inline(always)]
#[tactic(auto, using(crate::proofs::Gives::drop_did))]
fn do_drop(code: &Code, top: &mut Stack<Unboxed>, store: &Store) -> bool
    ensures { (ts : List types.VarType) → Did (machine.does_effect code.now ts effects.Drop)
        (Ok result) top.old top.new store.now store.now }
{
    top.pop().is_some()
}

/// A statement puts its line in force.
#[inline(always)]
#[tactic(auto, using(crate::proofs::Gives::line_is, crate::proofs::Gives::no_line))]
fn put_line(line: u32, store: &mut Store) -> bool
    ensures { Made result (set_line line) store.old store.new }
{
    match store_places::set_line(line, store) {
        Ok(()) => true,
        Err(Fault::End(_)) => false,
        Err(Fault::OutOfMemory) => false,
    }
}

/// Puts a line in force.
#[inline(always)]
#[tactic(auto, using(crate::proofs::Gives::line_did))]
fn do_line(code: &Code, line: u32, top: &Stack<Unboxed>, store: &mut Store) -> bool
    ensures { (ts : List types.VarType) → Did (machine.does_effect code.now ts (effects.Line line))
        (Ok result) top.now top.now store.old store.new }
{
    put_line(line, store)
}

/// What an instruction does to the operands that take no memory, the topmost first, and to the store: the
/// whole of it, or nothing. What it does not do is left to the general way.
#[inline(always)]
pub fn does_unboxed(
    code: &Code,
    effect: Effect,
    top: &mut Stack<Unboxed>,
    store: &mut Store,
) -> Result<bool, OutOfMemory>
    ensures { (ts : List types.VarType) → Did (machine.does_effect code.now ts effect)
        result top.old top.new store.old store.new }
{
    match effect {
        Effect::Constant(number) => do_constant(code, number, top, store),
        Effect::Apply(operator) => apply(operator, top, store),
        Effect::Drop => Ok(do_drop(code, top, store)),
        Effect::Line(line) => Ok(do_line(code, line, top, store)),
        Effect::Write => Ok(false),
        Effect::Copy => Ok(false),
        Effect::Twice => Ok(false),
        Effect::Reset(_, _) => Ok(false),
    }
}
