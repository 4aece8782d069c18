//! Global and static variables at the beginning of a program.
ghost use Rattle.std.specs.Prelude.{◌≡◌, true};
ghost use Rattle.mql_meaning.specs.Frames.{global_place};
ghost use Rattle.mql_meaning.specs.Objects.{for_all, for_variable, new_object, object_class};
ghost use Rattle.stack_begins.specs.Begins.{counts_more};
ghost use Rattle.store_cells.specs.Changes.{Does, Meets};

use mql_mean::ErrorKind;
use mql_meaning::{Cell, Class, Place, Root, Store, VarType};
use std::alloc::Global;
use store_cells::{Fault, total};
use store_objects::{object_class, object_for};
use store_places::{at_root, failed, more_cells};

/// The cells of variables are counted; too many are an error at the line in force, and leave the store.
pub fn count_more(cells: &[Cell], store: &mut Store) -> Result<(), Fault>
    ensures { Meets (counts_more cells.now) result store.old store.new }
{
    let Some(more) = total(cells) else {
        return Err(Fault::End(failed(ErrorKind::CellsExhausted, store)));
    };
    let Some(count) = more_cells(store.cells, more) else {
        return Err(Fault::End(failed(ErrorKind::CellsExhausted, store)));
    };
    store.cells = count;
    Ok(())
}

/// The place of a global.
pub fn global_place(alloc: Global, global: u32) -> Place
    ensures { result ≡ global_place global }
{
    at_root(alloc, Root::Global(global))
}

/// An object for a global, where it is of object type.
fn object_for_global(
    alloc: Global,
    classes: &[Class],
    global: u32,
    t: &VarType,
    store: &mut Store,
) -> Result<(), Fault>
    ensures { Does (for_variable (new_object classes.now true) (object_class t.now) (global_place global))
        result store.old store.new }
{
    let place = global_place(alloc, global);
    object_for(alloc, classes, object_class(t), &place, store)
}

/// Objects for the globals of object type, in order. Where globals have no number of 32 bits it says want of
/// memory.
pub fn objects(
    alloc: Global,
    classes: &[Class],
    globals: &[VarType],
    store: &mut Store,
) -> Result<(), Fault>
    ensures { Does (for_all (new_object classes.now true) global_place 0 globals.now)
        result store.old store.new }
{
    let mut i: u64 = 0;
    for t in globals {
        let Ok(global) = u32::try_from(i) else {
            return Err(Fault::OutOfMemory);
        };
        match object_for_global(alloc, classes, global, t, store) {
            Ok(()) => {}
            Err(fault) => return Err(fault),
        }
        i += 1;
    }
    Ok(())
}
