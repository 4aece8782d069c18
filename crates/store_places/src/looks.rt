//! What stands at places.
ghost use Rattle.std.specs.Prelude.{◌≡◌, None, Some, MatchOption, slice_get};
ghost use Rattle.mql_mean.specs.declared.error.ErrorKind.TheVariants as errors;
ghost use Rattle.mql_meaning.specs.declared.cell.Cell.{out-Cell};
ghost use Rattle.mql_meaning.specs.Changes.{fail, the, then_some};
ghost use Rattle.mql_meaning.specs.Places.{base_cell, cell_at, into, locals_of, object_in, or_fail, own, part};
ghost use Rattle.store_places.specs.Seen.{Lends, seen};

use crate::lines::failed;
use fx8::ItemList;
use mql_mean::ErrorKind;
use mql_meaning::{Cell, Frame, Object, Place, Root, Slot, Store};
use store_cells::End;

/// What stands at a place, lent from the store.
#[derive(Clone, Copy)]
pub enum Seen<'a> {
    /// A cell.
    Cell(&'a Cell),
    /// An object: its fields.
    Object(&'a ItemList<Cell>),
}

/// The object of a serial; `None` exactly where none lives that has it.
pub fn object_in(objects: &[Object], serial: u64) -> Option<&Object>
    ensures { MatchOption result (object_in objects.now serial ≡ None)
        (λ o. object_in objects.now serial ≡ Some o.now) }
{
    for object in objects {
        if object.serial == serial {
            return Some(object);
        }
    }
    None
}

/// An element of an array.
fn element<'a>(items: &'a ItemList<Cell>, i: u64, store: &Store) -> Result<Seen<'a>, End>
    ensures { Lends (or_fail (slice_get items.now i) (fail errors.ArrayRange) store.now) result store.now }
{
    match items.at(i) {
        Some(cell) => Ok(Seen::Cell(cell)),
        None => Err(failed(ErrorKind::ArrayRange, store)),
    }
}

/// A field of a structure.
fn field<'a>(fields: &'a ItemList<Cell>, i: u64, store: &Store) -> Result<Seen<'a>, End>
    ensures { Lends (the (slice_get fields.now i) store.now) result store.now }
{
    match fields.at(i) {
        Some(cell) => Ok(Seen::Cell(cell)),
        None => Err(End::Stuck),
    }
}

/// One position into a cell.
fn into_cell<'a>(cell: &'a Cell, i: u64, store: &Store) -> Result<Seen<'a>, End>
    ensures { Lends (into (out-Cell cell.now) i store.now) result store.now }
{
    match cell {
        Cell::One(_) => Err(End::Stuck),
        Cell::Array(_, _, _, items) => element(items, i, store),
        Cell::Structure(fields) => field(fields, i, store),
    }
}

/// One position into what is seen.
fn into<'a>(part: Seen<'a>, i: u64, store: &Store) -> Result<Seen<'a>, End>
    ensures { Lends (into (out-Cell (seen part.entry)) i store.now) result store.now }
{
    match part {
        Seen::Cell(cell) => into_cell(cell, i, store),
        Seen::Object(fields) => field(fields, i, store),
    }
}

/// The part at a path.
fn part<'a>(path: &[u64], whole: Seen<'a>, store: &Store) -> Result<Seen<'a>, End>
    ensures { Lends (part path.now (seen whole.entry) store.now) result store.now }
{
    match path {
        [] => Ok(whole),
        [i, rest @ ..] => match into(whole, *i, store) {
            Ok(inner) => part(rest, inner, store),
            Err(end) => Err(end),
        },
    }
}

/// A local's own cell.
fn own_cell(frame: &Frame, local: u32) -> Option<&Cell>
    ensures { MatchOption result (then_some (slice_get frame.now.locals local) own ≡ None)
        (λ c. then_some (slice_get frame.now.locals local) own ≡ Some c.now) }
{
    match frame.locals.at(local as u64) {
        Some(Slot::Own(cell)) => Some(cell),
        _ => None,
    }
}

/// What stands at a root.
fn base_cell(root: Root, store: &Store) -> Result<Seen<'_>, End>
    ensures { Lends (base_cell root store.now) result store.now }
{
    match root {
        Root::Global(global) => field(&store.globals, global as u64, store),
        Root::Local(frame, local) => match store.frames.at(frame as u64) {
            Some(frame) => match own_cell(frame, local) {
                Some(cell) => Ok(Seen::Cell(cell)),
                None => Err(End::Stuck),
            },
            None => Err(End::Stuck),
        },
        Root::Object(serial) => match object_in(store.heap.as_slice(), serial) {
            Some(object) => Ok(Seen::Object(&object.fields)),
            None => Err(failed(ErrorKind::InvalidPointer, store)),
        },
    }
}

/// What stands at a place; an element or an object that is not there any more is an error at the line in
/// force.
pub fn cell_at<'a>(place: &Place, store: &'a Store) -> Result<Seen<'a>, End>
    ensures { Lends (cell_at place.now store.now) result store.now }
{
    match base_cell(place.root, store) {
        Ok(whole) => part(place.path.as_slice(), whole, store),
        Err(end) => Err(end),
    }
}
