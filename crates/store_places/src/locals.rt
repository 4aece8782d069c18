//! Places of the call in force.
ghost use Rattle.std.specs.Prelude.{◌≡◌, IfOk};
ghost use Rattle.mql_meaning.specs.Places.{depth, local_place, slot_place, this_place};
ghost use Rattle.store_cells.specs.Changes.{Gives};

use crate::lines::top;
use crate::places::{at_root, copied_place};
use fx8::OutOfMemory;
use mql_meaning::{Place, Root, Slot, Store};
use std::alloc::Global;
use store_cells::{End, Fault};

/// The place of a local: its own, or the one that was lent.
fn slot_place(alloc: Global, slot: &Slot, frame: u32, local: u32) -> Result<Place, OutOfMemory>
    ensures { IfOk result (λ p. p ≡ slot_place slot.now frame local) }
{
    match slot {
        Slot::Own(_) => Ok(at_root(alloc, Root::Local(frame, local))),
        Slot::Lent(place) => copied_place(alloc, place),
    }
}

/// The number of frames without the innermost, where 32 bits hold it.
fn depth(store: &Store) -> Result<u32, OutOfMemory>
    ensures { IfOk result (λ n. n ≡ depth store.now) }
{
    let count = store.frames.len().saturating_sub(1);
    if count <= 0xFFFF_FFFF {
        Ok(count as u32)
    } else {
        Err(OutOfMemory)
    }
}

/// The place of a local of the call in force.
pub fn local_place(alloc: Global, local: u32, store: &Store) -> Result<Place, Fault>
    ensures { Gives (local_place local) result store.now }
{
    let Some(frame) = top(store) else {
        return Err(Fault::End(End::Stuck));
    };
    let Some(slot) = frame.locals.at(local as u64) else {
        return Err(Fault::End(End::Stuck));
    };
    let depth = depth(store)?;
    Ok(slot_place(alloc, slot, depth, local)?)
}

/// The place of the object or structure whose method runs.
pub fn this_place(alloc: Global, store: &Store) -> Result<Place, Fault>
    ensures { Gives this_place result store.now }
{
    let Some(frame) = top(store) else {
        return Err(Fault::End(End::Stuck));
    };
    match &frame.this {
        Some(place) => Ok(copied_place(alloc, place)?),
        None => Err(Fault::End(End::Stuck)),
    }
}
