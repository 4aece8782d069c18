//! Variables that hold numbers.
ghost use Rattle.std.specs.Prelude.{◌≡◌, Some, slice_get};
ghost use Rattle.mql_mean.specs.declared.value.Value.TheVariants as values;
ghost use Rattle.mql_meaning.specs.Changes.{then_some};
ghost use Rattle.mql_meaning.specs.Places.{at_root, own, write};
ghost use Rattle.stack_unboxed.specs.Unboxed.{Holds, Made, Names, Told, cell_of};

use crate::numbers::narrowed;
use crate::unboxed::Number;
use mql_mean::Value;
use mql_meaning::{Cell, Frame, Root, Slot, Store};
use store_cells::tag;
use store_places::{put_base, top};

/// The most cells that are in use.
const MOST_CELLS: u64 = 1_000_000;

/// The number that a value is, where it fits 64 bits.
#[inline(always)]
pub(crate) fn number_of(value: &Value) -> Option<Number>
    ensures { Told result (Some value.now) }
{
    match value {
        Value::Num(kind, number) => match narrowed(*number) {
            Some(number) => Some(Number {
                kind: *kind,
                number,
            }),
            None => None,
        },
        _ => None,
    }
}

/// The number that a cell holds, where it fits 64 bits.
#[inline(always)]
fn number_in(cell: &Cell) -> Option<Number>
    ensures { Holds result (Some cell.now) }
{
    match cell {
        Cell::One(Value::Num(kind, number)) => match narrowed(*number) {
            Some(number) => Some(Number {
                kind: *kind,
                number,
            }),
            None => None,
        },
        _ => None,
    }
}

/// The number that a local's own cell holds.
#[inline(always)]
fn number_of_local(frame: &Frame, local: u32) -> Option<Number>
    ensures { Holds result (then_some (slice_get frame.now.locals local) own) }
{
    match frame.locals.at(local as u64) {
        Some(Slot::Own(cell)) => number_in(cell),
        _ => None,
    }
}

/// The number that stands at a root, where it fits 64 bits.
#[inline(always)]
pub(crate) fn number_at(root: Root, store: &Store) -> Option<Number>
    ensures { Holds result (cell_of root store.now) }
{
    match root {
        Root::Global(global) => match store.globals.at(global as u64) {
            Some(cell) => number_in(cell),
            None => None,
        },
        Root::Local(frame, local) => match store.frames.at(frame as u64) {
            Some(frame) => number_of_local(frame, local),
            None => None,
        },
        Root::Object(_) => None,
    }
}

/// Where a local that is not lent stands.
#[inline(always)]
#[tactic(auto, using(crate::proofs::Holders::named_so))]
pub(crate) fn own_local(local: u32, store: &Store) -> Option<Root>
    ensures { Names result local store.now }
{
    let depth = store.frames.len().saturating_sub(1);
    if depth > 0xFFFF_FFFF {
        return None;
    }
    let Some(frame) = top(store) else {
        return None;
    };
    match frame.locals.at(local as u64) {
        Some(Slot::Own(_)) => Some(Root::Local(depth as u32, local)),
        _ => None,
    }
}

/// Puts a number into a variable that holds one of its kind.
#[inline(always)]
#[tactic(auto, using(crate::proofs::Holders::put_so))]
pub(crate) fn put_number(new: Number, root: Root, store: &mut Store) -> bool
    ensures { Made result (write (values.Num new.kind new.number) (at_root root)) store.old store.new }
{
    let Some(old) = number_at(root, store) else {
        return false;
    };
    if tag(old.kind) != tag(new.kind) {
        return false;
    }
    if store.cells == 0 {
        return false;
    }
    if store.cells > MOST_CELLS {
        return false;
    }
    let cell = Cell::One(Value::Num(new.kind, new.number as i128));
    put_base(root, &[], cell, store);
    true
}
