//! Events begin.
ghost use Rattle.std.specs.Prelude.{◌≡◌, [], ℕ, List, IfOk, map};
ghost use Rattle.mql_mean.specs.Answer.{Answer};
ghost use Rattle.mql_mean.specs.declared.host.HostCall.{HostCall};
ghost use Rattle.mql_meaning.specs.Means as means;
ghost use Rattle.mql_meaning.specs.Runs.{world};
ghost use Rattle.stack_code.specs.Machine.{begins, program_of};
ghost use Rattle.stack_machine.specs.Steps.{Reach};
ghost use Rattle.store_cells.specs.Changes.{Does};
ghost use Rattle.store_frames.specs.Operands.{shown};

use crate::calls::start;
use crate::ends::{End, Fault, faulted};
use crate::state::State;
use fx8::{IntKind, ItemList, OutOfMemory, Stack};
use mql_mean::Value;
use mql_meaning::{Entry, Store};
use stack_begins::begin;
use stack_code::Code;
use std::alloc::Global;
use store_frames::Operand;

/// Makes a stack empty, and keeps its room.
fn clear<T: Drop>(stack: &mut Stack<T>)
    ensures { stack.new ≡ [] }
{
    while let Some(_item) = stack.pop() {}
}

/// The function of an event; none where the program has none.
fn event(code: &Code, entry: Entry) -> Option<u32>
    ensures { result ≡ means.event (program_of code.now) entry }
{
    match entry {
        Entry::Start => code.entries.start,
        Entry::Init => code.entries.init,
        Entry::Tick => code.entries.tick,
        Entry::Trade => code.entries.trade,
        Entry::Tester => code.entries.tester,
        Entry::Deinit => code.entries.deinit,
        Entry::Stop => code.entries.stop,
    }
}

/// The arguments of the function of an event: OnDeinit takes the reason.
fn event_arguments(alloc: Global, entry: Entry, arg: i32) -> Result<ItemList<Operand>, OutOfMemory>
    ensures { IfOk result (λ xs. map shown xs ≡ means.event_arguments entry arg) }
{
    let mut arguments = ItemList::new(alloc);
    match entry {
        Entry::Deinit => {
            arguments.push(Operand::Value(Value::Num(IntKind::Int, arg as i128)))?;
            Ok(arguments)
        }
        _ => Ok(arguments),
    }
}

/// What comes first: Start makes globals and inputs.
fn first(
    alloc: Global,
    code: &Code,
    entry: Entry,
    store: &mut Store,
) -> Result<(), store_cells::Fault>
    ensures { Does (means.first (program_of code.now) entry) result store.old store.new }
{
    match entry {
        Entry::Start => begin(
            alloc,
            code.classes.as_slice(),
            code.globals.as_slice(),
            code.inputs.as_slice(),
            store,
        ),
        _ => Ok(()),
    }
}

/// An event begins with an argument, from a store.
pub fn begin_event(
    alloc: Global,
    code: &Code,
    entry: Entry,
    arg: i32,
    state: &mut State,
) -> Result<(), Fault>
    ensures { (n : ℕ) (calls : List HostCall) (answers : List Answer) → Reach result state.new n calls answers
        (begins code.now entry arg n (world state.old.store calls answers)) }
{
    clear(&mut state.operands);
    clear(&mut state.backs);
    match first(alloc, code, entry, &mut state.store) {
        Ok(()) => {}
        Err(fault) => return Err(faulted(fault)),
    }
    let Some(function) = event(code, entry) else {
        return Err(Fault::End(End::Stuck));
    };
    match event_arguments(alloc, entry, arg) {
        Ok(operands) => start(alloc, code, function, operands, state),
        Err(_) => Err(Fault::OutOfMemory),
    }
}
