//! Pointers, and the objects that they point to.
ghost use Rattle.std.specs.Prelude.{◌≡◌};
ghost use Rattle.mql_meaning.specs.declared.cell.Cell.{out-Cell};
ghost use Rattle.mql_meaning.specs.Changes.{then_some};
ghost use Rattle.mql_meaning.specs.Places.{pointed, pointer_of, serial_of, value_at};
ghost use Rattle.store_cells.specs.Changes.{Gives};
ghost use Rattle.store_places.specs.Puts.{held_pointer};
ghost use Rattle.store_places.specs.Seen.{seen};

use crate::lines::failed;
use crate::looks::{Seen, cell_at, object_in};
use crate::places::at_root;
use mql_mean::{ErrorKind, Value};
use mql_meaning::{Cell, Place, Root, Store};
use std::alloc::Global;
use store_cells::{End, Fault};

/// The serial that a pointer holds, 0 for `NULL`; `None` exactly where it is no pointer.
pub fn serial_of(value: &Value) -> Option<u64>
    ensures { result ≡ serial_of value.now }
{
    match value {
        Value::Ptr(serial) => Some(*serial),
        _ => None,
    }
}

/// The place of the object that a pointer points to; one that has gone is an error at the line in force. Takes
/// no memory.
pub fn pointed(alloc: Global, value: &Value, store: &Store) -> Result<Place, Fault>
    ensures { Gives (pointed value.now) result store.now }
{
    let Some(serial) = serial_of(value) else {
        return Err(Fault::End(End::Stuck));
    };
    match object_in(store.heap.as_slice(), serial) {
        Some(_) => Ok(at_root(alloc, Root::Object(serial))),
        None => Err(Fault::End(failed(ErrorKind::InvalidPointer, store))),
    }
}

/// The serial of the pointer that a cell holds.
fn cell_serial(cell: &Cell) -> Option<u64>
    ensures { result ≡ then_some (value_at (out-Cell cell.now)) serial_of }
{
    match cell {
        Cell::One(value) => serial_of(value),
        _ => None,
    }
}

/// The serial of the pointer that is held by what is seen.
fn seen_serial(part: Seen<'_>) -> Option<u64>
    ensures { result ≡ then_some (value_at (out-Cell (seen part.entry))) serial_of }
{
    match part {
        Seen::Cell(cell) => cell_serial(cell),
        Seen::Object(_) => None,
    }
}

/// The pointer that a variable or a field holds.
fn held_pointer(place: &Place, store: &Store) -> Result<Value, Fault>
    ensures { Gives (held_pointer place.now) result store.now }
{
    match cell_at(place, store) {
        Ok(part) => match seen_serial(part) {
            Some(serial) => Ok(Value::Ptr(serial)),
            None => Err(Fault::End(End::Stuck)),
        },
        Err(end) => Err(Fault::End(end)),
    }
}

/// The pointer to the object at a place: to the object itself, or to the one that a variable or field holds.
/// Takes no memory.
pub fn pointer_of(place: &Place, store: &Store) -> Result<Value, Fault>
    ensures { Gives (pointer_of place.now) result store.now }
{
    match place.root {
        Root::Object(serial) => match place.path.as_slice() {
            [] => Ok(Value::Ptr(serial)),
            [_, ..] => held_pointer(place, store),
        },
        Root::Global(_) => held_pointer(place, store),
        Root::Local(_, _) => held_pointer(place, store),
    }
}
