//! Parts that are put in the place of others.
ghost use Rattle.std.specs.Prelude.{◌≡◌, [], ◌∷◌};
ghost use Rattle.mql_meaning.specs.Places.{changed, set_base, with_fields, with_own, with_part};
ghost use Rattle.store_places.specs.Puts.{object_with, place_in, with_local};

use fx8::ItemList;
use mql_mean::Value;
use mql_meaning::{Cell, Frame, Object, Root, Slot, Store};
use std::mem;

/// A cell with another part at a path.
#[cycle(parts)]
fn with_part(cell: Cell, path: &[u64], new: Cell) -> Cell
    ensures { result ≡ with_part path.now new cell }
{
    match path {
        [] => new,
        [i, rest @ ..] => match cell {
            Cell::One(value) => Cell::One(value),
            Cell::Array(dynamic, series, unit, items) => {
                Cell::Array(dynamic, series, unit, with_item(items, *i, rest, new))
            }
            Cell::Structure(fields) => Cell::Structure(with_item(fields, *i, rest, new)),
        },
    }
}

/// Cells, one of them with another part at a path.
#[cycle(parts)]
#[tactic(auto, using(crate::proofs::Changed::changed_past, crate::proofs::Changed::changed_back))]
fn with_item(items: ItemList<Cell>, i: u64, rest: &[u64], new: Cell) -> ItemList<Cell>
    ensures { result ≡ changed items i (with_part rest.now new) }
{
    let mut items = items;
    if i >= items.len() {
        return items;
    }
    let part = items.replace(i, Cell::One(Value::Ptr(0)));
    let part = with_part(part, rest, new);
    let _hole = items.replace(i, part);
    items
}

/// Puts an item into a list, where there is one.
#[tactic(auto, using(crate::proofs::Changed::changed_past, crate::proofs::Changed::changed_to))]
fn set_item(items: &mut ItemList<Cell>, i: u64, new: Cell)
    ensures { items.new ≡ changed items.old i (with_part [] new) }
{
    if i < items.len() {
        let _old = items.replace(i, new);
    }
}

/// Puts a part into a cell at one position, where there is one.
fn set_part(cell: &mut Cell, i: u64, new: Cell)
    ensures { cell.new ≡ with_part (i ∷ []) new cell.old }
{
    match cell {
        Cell::One(_) => {}
        Cell::Array(_, _, _, items) => set_item(items, i, new),
        Cell::Structure(fields) => set_item(fields, i, new),
    }
}

/// Puts another part into a cell at a path, where there is one. Nothing but the cells on the path is moved.
pub fn put_in(cell: &mut Cell, path: &[u64], new: Cell)
    ensures { cell.new ≡ with_part path.now new cell.old }
{
    match path {
        [] => *cell = new,
        [i] => set_part(cell, *i, new),
        _ => {
            let old = mem::replace(cell, Cell::One(Value::Ptr(0)));
            *cell = with_part(old, path, new);
        }
    }
}

/// Puts another part into one of some cells.
#[tactic(auto, using(crate::proofs::Changed::changed_none, crate::proofs::Changed::changed_some))]
fn put_item(items: &mut ItemList<Cell>, i: u64, path: &[u64], new: Cell)
    ensures { items.new ≡ changed items.old i (with_part path.now new) }
{
    match items.at_mut(i) {
        Some(cell) => put_in(cell, path, new),
        None => {}
    }
}

/// Puts another part into a local that is not lent.
fn put_slot(slot: &mut Slot, path: &[u64], new: Cell)
    ensures { slot.new ≡ with_own (with_part path.now new) slot.old }
{
    match slot {
        Slot::Own(cell) => put_in(cell, path, new),
        Slot::Lent(_) => {}
    }
}

/// Puts another part into one of some locals that are not lent.
#[tactic(auto, using(crate::proofs::Changed::changed_none))]
fn put_slots(slots: &mut ItemList<Slot>, i: u64, path: &[u64], new: Cell)
    ensures { slots.new ≡ changed slots.old i (with_own (with_part path.now new)) }
{
    match slots.at_mut(i) {
        Some(slot) => put_slot(slot, path, new),
        None => {}
    }
}

/// Puts another part into a local of a frame.
fn put_local(frame: &mut Frame, local: u32, path: &[u64], new: Cell)
    ensures { frame.new ≡ record frame.old {
      locals = changed frame.old.locals local (with_own (with_part path.now new));
    } }
{
    put_slots(&mut frame.locals, local as u64, path, new);
}

/// Puts another part into a local of one of some frames.
#[tactic(auto, using(crate::proofs::Changed::changed_none))]
fn put_frames(frames: &mut ItemList<Frame>, i: u64, local: u32, path: &[u64], new: Cell)
    ensures { frames.new ≡ changed frames.old i (with_local local (with_part path.now new)) }
{
    match frames.at_mut(i) {
        Some(frame) => put_local(frame, local, path, new),
        None => {}
    }
}

/// Puts another part into an object, which is seen as the structure of its fields.
fn put_object(object: &mut Object, path: &[u64], new: Cell)
    ensures { object.new ≡ object_with (with_part path.now new) object.old }
{
    match path {
        [] => match new {
            Cell::Structure(fields) => object.fields = fields,
            _ => object.fields.clear(),
        },
        [i, rest @ ..] => put_item(&mut object.fields, *i, rest, new),
    }
}

/// The position of the first object that has a serial; past all where none has it.
pub(crate) fn place_in(objects: &[Object], serial: u64) -> u64
    ensures { result ≡ place_in objects.now serial }
{
    let mut place: u64 = 0;
    for object in objects {
        if object.serial == serial {
            return place;
        }
        place += 1;
    }
    place
}

/// Puts another part into one of some objects.
#[tactic(auto, using(crate::proofs::Changed::changed_none))]
fn put_objects(objects: &mut ItemList<Object>, i: u64, path: &[u64], new: Cell)
    ensures { objects.new ≡ changed objects.old i (object_with (with_part path.now new)) }
{
    match objects.at_mut(i) {
        Some(object) => put_object(object, path, new),
        None => {}
    }
}

/// Puts another part into the object of a serial, where one lives that has it.
#[tactic(auto, using(crate::proofs::Changed::with_fields_at))]
fn put_heap(heap: &mut ItemList<Object>, serial: u64, path: &[u64], new: Cell)
    ensures { heap.new ≡ with_fields heap.old serial (with_part path.now new) }
{
    let place = place_in(heap.as_slice(), serial);
    put_objects(heap, place, path, new);
}

/// Puts another part into what stands at a root, where there is one. Takes no memory, and touches nothing but
/// the cells on the path.
pub fn put_base(root: Root, path: &[u64], new: Cell, store: &mut Store)
    ensures { store.new ≡ set_base root (with_part path.now new) store.old }
{
    match root {
        Root::Global(global) => put_item(&mut store.globals, global as u64, path, new),
        Root::Local(frame, local) => {
            put_frames(&mut store.frames, frame as u64, local, path, new);
        }
        Root::Object(serial) => put_heap(&mut store.heap, serial, path, new),
    }
}
