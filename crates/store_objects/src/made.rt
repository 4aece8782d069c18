//! Objects with the objects that are their fields.
ghost use Rattle.std.specs.Prelude.{◌≡◌, slice_get, true, IfOk};
ghost use Rattle.mql_mean.specs.declared.value.Value.TheVariants as value;
ghost use Rattle.mql_meaning.specs.Cells.{fields_of};
ghost use Rattle.mql_meaning.specs.Objects.{field_at, for_all, for_variable, fresh, make, new_object, object_class};
ghost use Rattle.mql_meaning.specs.Places.{write};
ghost use Rattle.store_cells.specs.Changes.{Does, Leads};
ghost use Rattle.store_objects.specs.Added.{with_fields};

use crate::classes::{fields_of, object_class};
use crate::fresh::fresh;
use fx8::{ItemList, OutOfMemory};
use mql_mean::Value;
use mql_meaning::{Class, Place, Root, Store, VarType};
use std::alloc::Global;
use std::mem;
use store_cells::{End, Fault};
use store_places::write;

/// The place of a field of an object.
fn field_at(alloc: Global, serial: u64, i: u64) -> Result<Place, OutOfMemory>
    ensures { IfOk result (λ p. p ≡ field_at serial i) }
{
    let mut path = ItemList::new(alloc);
    path.push(i)?;
    Ok(Place {
        root: Root::Object(serial),
        path,
    })
}

/// A new object of zeros in a store that is passed on.
fn fresh_in(
    alloc: Global,
    classes: &[Class],
    class: u32,
    automatic: bool,
    store: Store,
) -> (Result<u64, Fault>, Store)
    ensures { Leads (fresh classes.now class automatic store) result.0 result.1 }
{
    let mut store = store;
    match fresh(alloc, classes, class, automatic, &mut store) {
        Ok(serial) => (Ok(serial), store),
        Err(Fault::End(end)) => (Err(Fault::End(end)), store),
        Err(Fault::OutOfMemory) => (Err(Fault::OutOfMemory), store),
    }
}

/// A place gets the pointer to an object, in a store that is passed on.
fn point(alloc: Global, serial: u64, place: &Place, store: Store) -> (Result<(), Fault>, Store)
    ensures { Leads (write (value.Ptr serial) place.now store) result.0 result.1 }
{
    let mut store = store;
    match write(alloc, Value::Ptr(serial), place, &mut store) {
        Ok(()) => (Ok(()), store),
        Err(Fault::End(end)) => (Err(Fault::End(end)), store),
        Err(Fault::OutOfMemory) => (Err(Fault::OutOfMemory), store),
    }
}

/// A new object, and then objects for its fields in order, which are automatic. Objects nest at most so deep.
#[cycle(objects)]
#[tactic(auto, using(crate::proofs::Making::make_none, crate::proofs::Making::make_more))]
fn make(
    alloc: Global,
    deep: u64,
    classes: &[Class],
    automatic: bool,
    class: u32,
    store: Store,
) -> (Result<u64, Fault>, Store)
    ensures { Leads (make deep classes.now automatic class store) result.0 result.1 }
{
    if deep == 0 {
        return (Err(Fault::End(End::Stuck)), store);
    }
    let (made, store) = fresh_in(alloc, classes, class, automatic, store);
    match made {
        Ok(serial) => with_fields(
            alloc,
            deep - 1,
            classes,
            serial,
            fields_of(classes, class),
            store,
        ),
        Err(fault) => (Err(fault), store),
    }
}

/// Objects for the fields of an object, whose serial it gives.
#[cycle(objects)]
fn with_fields(
    alloc: Global,
    deep: u64,
    classes: &[Class],
    serial: u64,
    types: &[VarType],
    store: Store,
) -> (Result<u64, Fault>, Store)
    ensures { Leads (with_fields deep classes.now types.now serial store) result.0 result.1 }
{
    let (made, store) = for_fields(alloc, deep, classes, serial, types, store);
    match made {
        Ok(()) => (Ok(serial), store),
        Err(fault) => (Err(fault), store),
    }
}

/// Objects for the fields of an object, in order.
#[cycle(objects)]
fn for_fields(
    alloc: Global,
    deep: u64,
    classes: &[Class],
    serial: u64,
    types: &[VarType],
    store: Store,
) -> (Result<(), Fault>, Store)
    ensures { Leads (for_all (make deep classes.now true) (field_at serial) 0 types.now store)
        result.0 result.1 }
{
    let mut store = store;
    let mut i: u64 = 0;
    for t in types {
        let (made, left) = for_field(alloc, deep, classes, serial, i, t, store);
        store = left;
        match made {
            Ok(()) => {}
            Err(fault) => return (Err(fault), store),
        }
        i += 1;
    }
    (Ok(()), store)
}

/// An object for a field, where it is of object type.
#[cycle(objects)]
fn for_field(
    alloc: Global,
    deep: u64,
    classes: &[Class],
    serial: u64,
    i: u64,
    t: &VarType,
    store: Store,
) -> (Result<(), Fault>, Store)
    ensures { Leads (for_variable (make deep classes.now true) (object_class t.now) (field_at serial i) store)
        result.0 result.1 }
{
    match field_at(alloc, serial, i) {
        Ok(place) => for_variable(alloc, deep, classes, object_class(t), &place, store),
        Err(_) => (Err(Fault::OutOfMemory), store),
    }
}

/// An object for a variable of object type, which holds the pointer to it; nothing for another variable.
#[cycle(objects)]
fn for_variable(
    alloc: Global,
    deep: u64,
    classes: &[Class],
    class: Option<u32>,
    place: &Place,
    store: Store,
) -> (Result<(), Fault>, Store)
    ensures { Leads (for_variable (make deep classes.now true) class place.now store) result.0 result.1 }
{
    match class {
        None => (Ok(()), store),
        Some(class) => {
            let (made, store) = make(alloc, deep, classes, true, class, store);
            match made {
                Ok(serial) => point(alloc, serial, place, store),
                Err(fault) => (Err(fault), store),
            }
        }
    }
}

/// A store in which nothing is.
fn nothing(alloc: Global) -> Store {
    Store {
        frames: ItemList::new(alloc),
        globals: ItemList::new(alloc),
        heap: ItemList::new(alloc),
        last: 0,
        cells: 0,
        inputs: ItemList::new(alloc),
    }
}

/// A new object of a class, and objects for its fields, which are automatic; it gives the serial. Where it
/// comes to an end it leaves the store as the definition does: with the objects that are made by then; where
/// there was no memory nothing is said of the store.
pub fn new_object(
    alloc: Global,
    classes: &[Class],
    automatic: bool,
    class: u32,
    store: &mut Store,
) -> Result<u64, Fault>
    ensures { Does (new_object classes.now automatic class) result store.old store.new }
{
    let old = mem::replace(store, nothing(alloc));
    let (made, new) = make(alloc, classes.len() as u64, classes, automatic, class, old);
    *store = new;
    made
}

/// An automatic object for a variable of object type, which holds the pointer to it; nothing for a variable
/// that has no class. Where there was no memory nothing is said of the store.
pub fn object_for(
    alloc: Global,
    classes: &[Class],
    class: Option<u32>,
    place: &Place,
    store: &mut Store,
) -> Result<(), Fault>
    ensures { Does (for_variable (new_object classes.now true) class place.now) result store.old store.new }
{
    let old = mem::replace(store, nothing(alloc));
    let (made, new) = for_variable(alloc, classes.len() as u64, classes, class, place, old);
    *store = new;
    made
}
