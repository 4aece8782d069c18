//! Calls begin and end.
ghost use Rattle.std.specs.Prelude.{◌≡◌, ◌+◌, ◌-◌, true, map};
ghost use Rattle.mql_meaning.specs.Changes.{Done};
ghost use Rattle.mql_meaning.specs.Frames.{enter, enter_by, enter_with, held, leave, made_by};
ghost use Rattle.store_cells.specs.Changes.{Meets};
ghost use Rattle.store_frames.specs.Heads.{headed};
ghost use Rattle.store_frames.specs.Operands.{shown};
ghost use Rattle.store_frames.specs.Slots.{pushes};
ghost use Rattle.store_places.specs.Puts.{Counted};

use crate::head::Head;
use crate::operand::Operand;
use crate::parameters::{held, slots};
use fx8::{ItemList, Stack};
use mql_mean::ErrorKind;
use mql_meaning::{Class, Frame, Place, Slot, Store};
use std::alloc::Global;
use store_cells::{End, Fault, zeros};
use store_places::{failed, more_cells};

/// The most calls in force at once.
pub const MOST_FRAMES: u64 = 1024;

/// How many cells are left without those of a frame.
fn without_frame(taken: u64, locals: &[Slot]) -> u64
    ensures { result ≡ taken - held locals.now }
{
    match held(locals) {
        Some(cells) => taken.saturating_sub(cells),
        None => 0,
    }
}

/// A call ends: its frame and its cells are given back. Takes no memory.
#[tactic(auto, using(crate::proofs::Left::left_is))]
pub fn leave(store: &mut Store)
    ensures { leave store.old ≡ Done tt store.new }
{
    match store.frames.pop() {
        Some(frame) => store.cells = without_frame(store.cells, frame.locals.as_slice()),
        None => {}
    }
}

/// The class whose constructor or destructor a function is.
fn made_by(head: Head<'_>) -> Option<u32>
    ensures { result ≡ made_by (headed head.entry) }
{
    if head.makes { head.class } else { None }
}

/// How many cells are in use with those of locals; `None` exactly where they are too many.
fn with_locals(taken: u64, locals: &[Slot]) -> Option<u64>
    ensures { Counted (taken + held locals.now) result }
{
    let Some(more) = held(locals) else {
        return None;
    };
    more_cells(taken, more)
}

/// A frame more, and so many cells in use. A refused call changes nothing.
fn push_frame(frame: Frame, cells: u64, store: &mut Store) -> Result<(), Fault>
    ensures { Meets (pushes frame cells) result store.old store.new }
{
    match store.frames.push(frame) {
        Ok(()) => {
            store.cells = cells;
            Ok(())
        }
        Err(_) => Err(Fault::OutOfMemory),
    }
}

/// A call on an object or structure, or on none: its cells are counted, and it has its frame.
fn enter_with(
    alloc: Global,
    classes: &[Class],
    head: Head<'_>,
    this: Option<Place>,
    operands: Stack<Operand>,
    store: &mut Store,
) -> Result<(), Fault>
    ensures { Meets (enter_with classes.now (headed head.entry) this (map shown operands))
        result store.old store.new }
{
    let cells = zeros(alloc, classes, head.locals)?;
    let Some(locals) = slots(alloc, cells, head.lent, operands)? else {
        return Err(Fault::End(End::Stuck));
    };
    let Some(count) = with_locals(store.cells, locals.as_slice()) else {
        return Err(Fault::End(failed(ErrorKind::CellsExhausted, store)));
    };
    let frame = Frame {
        locals,
        this,
        makes: made_by(head),
        line: 0,
    };
    push_frame(frame, count, store)
}

/// The object of a method comes before its arguments.
fn enter_by(
    alloc: Global,
    classes: &[Class],
    head: Head<'_>,
    operands: Stack<Operand>,
    store: &mut Store,
) -> Result<(), Fault>
    ensures { Meets (enter_by true classes.now (headed head.entry) (map shown operands))
        result store.old store.new }
{
    let mut rest = operands;
    match rest.pop() {
        Some(Operand::Place(place)) => {
            enter_with(alloc, classes, head, Some(place), rest, store)
        }
        _ => Err(Fault::End(End::Stuck)),
    }
}

/// A call begins: the 1,025th at once is an error at the caller's line. A refusal, want of memory too, leaves
/// the store.
pub fn enter(
    alloc: Global,
    classes: &[Class],
    head: Head<'_>,
    operands: ItemList<Operand>,
    store: &mut Store,
) -> Result<(), Fault>
    ensures { Meets (enter classes.now (headed head.entry) (map shown operands))
        result store.old store.new }
{
    if store.frames.len() >= MOST_FRAMES {
        return Err(Fault::End(failed(ErrorKind::StackOverflow, store)));
    }
    let operands = Stack::of_list(operands);
    match head.class {
        Some(_) => enter_by(alloc, classes, head, operands, store),
        None => enter_with(alloc, classes, head, None, operands, store),
    }
}
