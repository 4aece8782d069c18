//! Locals that begin anew.
ghost use Rattle.std.specs.Prelude.{◌-◌, drop, take};
ghost use Rattle.mql_meaning.specs.Frames.{reset, reset_one};
ghost use Rattle.store_cells.specs.Changes.{Does};
ghost use Rattle.store_frames.specs.Resets.{reset_local};

use mql_meaning::{Class, Place, Store, VarType};
use std::alloc::Global;
use store_cells::{Fault, zero_of};
use store_objects::{object_class, object_for};
use store_places::{local_place, replace};

/// A variable begins anew: as zero, and with its object.
#[tactic(auto, using(crate::proofs::Begun::one_anew))]
fn reset_one(
    alloc: Global,
    classes: &[Class],
    t: &VarType,
    place: &Place,
    store: &mut Store,
) -> Result<(), Fault>
    ensures { Does (reset_one classes.now t.now place.now) result store.old store.new }
{
    let zero = zero_of(alloc, classes, t)?;
    match replace(place, zero, store) {
        Ok(()) => object_for(alloc, classes, object_class(t), place, store),
        Err(fault) => Err(fault),
    }
}

/// A local of the call in force begins anew.
fn reset_local(
    alloc: Global,
    classes: &[Class],
    local: u32,
    t: &VarType,
    store: &mut Store,
) -> Result<(), Fault>
    ensures { Does (reset_local classes.now local t.now) result store.old store.new }
{
    match local_place(alloc, local, store) {
        Ok(place) => reset_one(alloc, classes, t, &place, store),
        Err(fault) => Err(fault),
    }
}

/// Locals of the call in force, from the first to before the end, begin anew in order: as zero, and those of
/// object type with their objects. Where it comes to an end it leaves the store as the definition does, with
/// the locals that have begun by then; where there was no memory nothing is said of the store.
pub fn reset(
    alloc: Global,
    classes: &[Class],
    first: u32,
    end: u32,
    locals: &[VarType],
    store: &mut Store,
) -> Result<(), Fault>
    ensures { Does (reset classes.now first (take (end - first) (drop first locals.now)))
        result store.old store.new }
{
    for local in first..end {
        let Some(t) = locals.get(local as usize) else {
            return Ok(());
        };
        match reset_local(alloc, classes, local, t, store) {
            Ok(()) => {}
            Err(fault) => return Err(fault),
        }
    }
    Ok(())
}
