//! Objects of zeros.
ghost use Rattle.std.specs.Prelude.{◌≡◌, ◌+◌};
ghost use Rattle.mql_meaning.specs.Cells.{total};
ghost use Rattle.mql_meaning.specs.Objects.{fresh, own_cell};
ghost use Rattle.store_cells.specs.Changes.{Meets};
ghost use Rattle.store_objects.specs.Added.{adds};
ghost use Rattle.store_places.specs.Puts.{Counted};

use crate::classes::fields_of;
use mql_mean::ErrorKind;
use mql_meaning::{Cell, Class, Object, Store};
use std::alloc::Global;
use store_cells::{Fault, total, zeros};
use store_places::{failed, more_cells};

/// The cell of an object itself: that of an automatic one is its variable's or field's.
fn own_cell(automatic: bool) -> u64
    ensures { result ≡ own_cell automatic }
{
    if automatic { 0 } else { 1 }
}

/// How many cells are in use with those of an object; `None` exactly where they are too many.
fn with_object(taken: u64, automatic: bool, fields: &[Cell]) -> Option<u64>
    ensures { Counted (taken + own_cell automatic + total fields.now) result }
{
    let Some(more) = total(fields) else {
        return None;
    };
    let Some(taken) = more_cells(taken, own_cell(automatic)) else {
        return None;
    };
    more_cells(taken, more)
}

/// An object more, and so many cells in use. A refused call changes nothing.
fn add_object(object: Object, cells: u64, store: &mut Store) -> Result<u64, Fault>
    ensures { Meets (adds object cells) result store.old store.new }
{
    let serial = object.serial;
    match store.heap.push(object) {
        Ok(()) => {
            store.last = serial;
            store.cells = cells;
            Ok(serial)
        }
        Err(_) => Err(Fault::OutOfMemory),
    }
}

/// A new object of zeros, which gets the next serial. A refusal, want of memory too, leaves the store.
pub(crate) fn fresh(
    alloc: Global,
    classes: &[Class],
    class: u32,
    automatic: bool,
    store: &mut Store,
) -> Result<u64, Fault>
    ensures { Meets (fresh classes.now class automatic) result store.old store.new }
{
    let fields = zeros(alloc, classes, fields_of(classes, class))?;
    if store.last == u64::MAX {
        return Err(Fault::End(failed(ErrorKind::CellsExhausted, store)));
    }
    let Some(cells) = with_object(store.cells, automatic, fields.as_slice()) else {
        return Err(Fault::End(failed(ErrorKind::CellsExhausted, store)));
    };
    let object = Object {
        serial: store.last + 1,
        class,
        automatic,
        fields,
    };
    add_object(object, cells, store)
}
