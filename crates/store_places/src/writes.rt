//! Reading and writing.
ghost use Rattle.std.specs.Prelude.{◌≡◌, ◌+◌, ◌-◌, ◌^◌, ◌≤◌, IfOk, MatchOption};
ghost use Rattle.mql_meaning.specs.Cells.{put, told, weight};
ghost use Rattle.mql_meaning.specs.Places.{counts, read, write};
ghost use Rattle.store_cells.specs.Changes.{Gives, Meets};
ghost use Rattle.store_places.specs.Puts.{Counted, Makes, Recounts, put_at};
ghost use Rattle.store_places.specs.Seen.{seen};

use crate::lines::failed;
use crate::looks::{Seen, cell_at};
use crate::puts::put_base;
use fx8::OutOfMemory;
use mql_mean::{ErrorKind, Value};
use mql_meaning::{Cell, Place, Store};
use std::alloc::Global;
use store_cells::{End, Fault, put, put_structure, told, told_all, total, weight};

/// The most cells that are in use.
pub const MOST_CELLS: u64 = 1_000_000;

/// The value that is held by what is seen.
#[tactic(auto, using(crate::proofs::Objects::told_object))]
fn told_seen(alloc: Global, part: Seen<'_>) -> Result<Value, OutOfMemory>
    ensures { IfOk result (λ v. v ≡ told (seen part.entry)) }
{
    match part {
        Seen::Cell(cell) => told(alloc, cell),
        Seen::Object(fields) => Ok(Value::Rec(told_all(alloc, fields.as_slice())?)),
    }
}

/// What is seen, which gets a value.
fn put_seen(alloc: Global, part: Seen<'_>, value: Value) -> Result<Option<Cell>, OutOfMemory>
    ensures { IfOk result (λ new. new ≡ put (seen part.entry) value) }
{
    match part {
        Seen::Cell(cell) => put(alloc, cell, value),
        Seen::Object(fields) => put_structure(alloc, fields.as_slice(), value),
    }
}

/// How many cells are taken by what is seen, where 64 bits hold their number.
#[tactic(auto, using(crate::proofs::Objects::weight_object))]
fn weight_seen(part: Seen<'_>) -> Option<u64>
    ensures { MatchOption result (2 ^ 64 ≤ weight (seen part.entry)) (λ n. n ≡ weight (seen part.entry)) }
{
    match part {
        Seen::Cell(cell) => weight(cell),
        Seen::Object(fields) => total(fields.as_slice()),
    }
}

/// How many cells are left without those of what is seen.
fn without(taken: u64, part: Seen<'_>) -> u64
    ensures { result ≡ taken - weight (seen part.entry) }
{
    match weight_seen(part) {
        Some(cells) => taken.saturating_sub(cells),
        None => 0,
    }
}

/// How many cells are in use once so many more are; `None` exactly where they are too many.
pub fn more_cells(taken: u64, more: u64) -> Option<u64>
    ensures { Counted (taken + more) result }
{
    let Some(count) = taken.checked_add(more) else {
        return None;
    };
    if count <= MOST_CELLS {
        Some(count)
    } else {
        None
    }
}

/// How many cells are in use once what is seen has gone and a cell has come; `None` exactly where they are too
/// many.
fn recount(taken: u64, old: Seen<'_>, new: &Cell) -> Option<u64>
    ensures { Counted (taken - weight (seen old.entry) + weight new.now) result }
{
    let left = without(taken, old);
    let Some(more) = weight(new) else {
        return None;
    };
    more_cells(left, more)
}

/// Another number of cells is in use. Takes no memory.
pub fn counts(cells: u64, store: &mut Store) -> Result<(), Fault>
    ensures { Meets (counts cells) result store.old store.new }
{
    if cells > MOST_CELLS {
        return Err(Fault::End(failed(ErrorKind::CellsExhausted, store)));
    }
    store.cells = cells;
    Ok(())
}

/// How many cells are in use once a cell is put at a place.
fn recounted(place: &Place, new: &Cell, store: &Store) -> Result<u64, End>
    ensures { Recounts new.now place.now result store.now }
{
    match cell_at(place, store) {
        Ok(old) => match recount(store.cells, old, new) {
            Some(cells) => Ok(cells),
            None => Err(failed(ErrorKind::CellsExhausted, store)),
        },
        Err(end) => Err(end),
    }
}

/// A cell is put in the place of what stands at a place; the number of cells changes as they do. Takes no
/// memory, and touches nothing but the cells on the path.
pub fn replace(place: &Place, new: Cell, store: &mut Store) -> Result<(), Fault>
    ensures { Meets (put_at new place.now) result store.old store.new }
{
    match recounted(place, &new, store) {
        Ok(cells) => {
            store.cells = cells;
            put_base(place.root, place.path.as_slice(), new, store);
            Ok(())
        }
        Err(end) => Err(Fault::End(end)),
    }
}

/// The value at a place.
pub fn read(alloc: Global, place: &Place, store: &Store) -> Result<Value, Fault>
    ensures { Gives (read place.now) result store.now }
{
    match cell_at(place, store) {
        Ok(part) => Ok(told_seen(alloc, part)?),
        Err(end) => Err(Fault::End(end)),
    }
}

/// The cell that a place gets for a value.
fn made(alloc: Global, value: Value, place: &Place, store: &Store) -> Result<Cell, Fault>
    ensures { Makes value place.now result store.now }
{
    match cell_at(place, store) {
        Ok(old) => match put_seen(alloc, old, value)? {
            Some(new) => Ok(new),
            None => Err(Fault::End(End::Stuck)),
        },
        Err(end) => Err(Fault::End(end)),
    }
}

/// A place gets a value of its type. A refusal, want of memory too, leaves the store.
pub fn write(alloc: Global, value: Value, place: &Place, store: &mut Store) -> Result<(), Fault>
    ensures { Meets (write value place.now) result store.old store.new }
{
    match made(alloc, value, place, store) {
        Ok(new) => replace(place, new, store),
        Err(Fault::End(end)) => Err(Fault::End(end)),
        Err(Fault::OutOfMemory) => Err(Fault::OutOfMemory),
    }
}
