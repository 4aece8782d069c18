//! Calls of native functions.
ghost use Rattle.std.specs.Prelude.{◌≡◌, ℕ, map};
ghost use Rattle.mql_meaning.specs.Calls as calls;
ghost use Rattle.native_arguments.specs.Arguments as readers;
ghost use Rattle.native_calls.specs.Kinds.{by_change, calls_by, kind_of};
ghost use Rattle.native_calls.specs.Outcomes.{comes_to, ends_with, outcome, runs_lent};
ghost use Rattle.stack_world.specs.Acts.{Acts, halted};
ghost use Rattle.store_frames.specs.Operands.{shown};

use crate::asking::{asked, tells};
use crate::computing::computed;
use crate::lending::lent;
use crate::outcome::Outcome;
use crate::pointers::{points, tells_status};
use crate::writing::put_counted;
use fx8::ItemList;
use mql_mean::Value;
use mql_meaning::Store;
use native_arguments::Argument;
use natives::{Evaluation, Native};
use stack_world::{Halt, World};
use std::alloc::Global;
use store_cells::Fault;
use store_frames::Operand;

/// How a native function is called.
#[derive(Clone, Copy, Debug, PartialEq, Eq)]
pub(crate) enum Kind {
    /// GetPointer: it tells of a place.
    Points,
    /// CheckPointer: it tells of a pointer.
    TellsStatus,
    /// Over its arguments, which are lent.
    OverArguments,
}

/// How a native function is called.
fn kind_of(native: Native) -> Kind
    ensures { result ≡ kind_of native }
{
    match native {
        Native::GetPointer => Kind::Points,
        Native::CheckPointer => Kind::TellsStatus,
        _ => Kind::OverArguments,
    }
}

/// Whether a native function asks the world.
fn asks(native: Native) -> bool
    ensures { result ≡ calls.asks native }
{
    match native.evaluation() {
        Evaluation::World => true,
        Evaluation::Pure => false,
        Evaluation::Store => false,
        Evaluation::Compiler => false,
    }
}

/// What a native function comes to with arguments: it asks the world, or computes.
fn comes_to<W: World>(
    alloc: Global,
    native: Native,
    arguments: &[Argument<'_>],
    store: &Store,
    world: &mut W,
) -> Result<Outcome, Halt>
    ensures { (n : ℕ) → Acts W.answers (comes_to native (readers.all_shown arguments.now)) result n
        store.now store.now world.old world.new }
{
    if asks(native) {
        return asked(alloc, native, arguments, store, world);
    }
    match computed(alloc, native, arguments, store) {
        Ok(outcome) => Ok(outcome),
        Err(fault) => Err(halted(fault)),
    }
}

/// What a native function comes to with operands.
fn outcome<W: World>(
    alloc: Global,
    native: Native,
    operands: &[Operand],
    store: &Store,
    world: &mut W,
) -> Result<Outcome, Halt>
    ensures { (n : ℕ) → Acts W.answers (outcome native (map shown operands.now)) result n
        store.now store.now world.old world.new }
{
    match lent(alloc, operands, store) {
        Ok(arguments) => comes_to(alloc, native, arguments.as_slice(), store, world),
        Err(fault) => Err(halted(fault)),
    }
}

/// Why a change that does not come to its end halts a call.
fn halted(fault: Fault) -> Halt
    ensures { result ≡ halted fault }
{
    match fault {
        Fault::End(end) => Halt::End(end),
        Fault::OutOfMemory => Halt::OutOfMemory,
    }
}

/// What a native function comes to is written to its reference arguments, and the last error is told.
fn ends_with<W: World>(
    alloc: Global,
    operands: &[Operand],
    outcome: Outcome,
    store: &mut Store,
    world: &mut W,
) -> Result<Value, Halt>
    ensures { (n : ℕ) → Acts W.answers (ends_with (calls.places_in (map shown operands.now)) outcome) result n
        store.old store.new world.old world.new }
{
    let Outcome {
        value,
        news,
        counts,
        out_of_range,
    } = outcome;
    match put_counted(operands, counts, news, store) {
        Ok(()) => {}
        Err(fault) => return Err(halted(fault)),
    }
    match tells(alloc, out_of_range, store, world) {
        Ok(()) => Ok(value),
        Err(halt) => Err(halt),
    }
}

/// Calls a native function over arguments that are lent.
fn runs_lent<W: World>(
    alloc: Global,
    native: Native,
    operands: &[Operand],
    store: &mut Store,
    world: &mut W,
) -> Result<Value, Halt>
    ensures { (n : ℕ) → Acts W.answers (runs_lent native (map shown operands.now)) result n
        store.old store.new world.old world.new }
{
    match outcome(alloc, native, operands, store, world) {
        Ok(outcome) => ends_with(alloc, operands, outcome, store, world),
        Err(halt) => Err(halt),
    }
}

/// What a pointer tells, or where an object is, as a call.
fn by_change(done: Result<Value, Fault>) -> Result<Value, Halt>
    ensures { result ≡ by_change done }
{
    match done {
        Ok(value) => Ok(value),
        Err(fault) => Err(halted(fault)),
    }
}

/// Calls a native function with its operands, over a store and a world. A reply of the world that the call may
/// not give stops the run, and an error that the world tells ends it at the line in force. Where there was no
/// memory nothing is said of the store and of the world.
pub fn call_native<W: World>(
    alloc: Global,
    native: Native,
    operands: ItemList<Operand>,
    store: &mut Store,
    world: &mut W,
) -> Result<Value, Halt>
    ensures { (n : ℕ) → Acts W.answers (calls.calls_native native (map shown operands)) result n
        store.old store.new world.old world.new }
{
    let operands = operands.as_slice();
    match kind_of(native) {
        Kind::Points => by_change(points(operands, store)),
        Kind::TellsStatus => by_change(tells_status(operands, store)),
        Kind::OverArguments => runs_lent(alloc, native, operands, store, world),
    }
}
