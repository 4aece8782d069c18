//! The beginning of a program.
ghost use Rattle.mql_meaning.specs.Frames.{begin};
ghost use Rattle.stack_begins.specs.Begins.{fills, program};
ghost use Rattle.store_cells.specs.Changes.{Does};

use crate::globals::{count_more, objects};
use crate::inputs::{copied, write_inputs};
use mql_meaning::{Class, Input, SetInput, Store, VarType};
use std::alloc::Global;
use store_cells::{Fault, zeros};

/// Globals of object type get their objects, and inputs their values.
fn fill(
    alloc: Global,
    classes: &[Class],
    globals: &[VarType],
    inputs: &[Input],
    set: &[SetInput],
    store: &mut Store,
) -> Result<(), Fault>
    ensures { Does (fills (program classes.now globals.now inputs.now) set.now) result store.old store.new }
{
    match objects(alloc, classes, globals, store) {
        Ok(()) => write_inputs(alloc, set, inputs, store),
        Err(fault) => Err(fault),
    }
}

/// A program begins: globals and statics are zero, those of object type get their objects in order, and
/// inputs their values. Where it comes to an end it leaves the store as the definition does; where there was
/// no memory nothing is said of the store.
pub fn begin(
    alloc: Global,
    classes: &[Class],
    globals: &[VarType],
    inputs: &[Input],
    store: &mut Store,
) -> Result<(), Fault>
    ensures { Does (begin (program classes.now globals.now inputs.now)) result store.old store.new }
{
    let cells = zeros(alloc, classes, globals)?;
    match count_more(cells.as_slice(), store) {
        Ok(()) => {
            let set = copied(alloc, store.inputs.as_slice())?;
            store.globals = cells;
            fill(alloc, classes, globals, inputs, set.as_slice(), store)
        }
        Err(fault) => Err(fault),
    }
}
