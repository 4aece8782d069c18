//! Places that get values.
ghost use Rattle.std.specs.Prelude.{[], ◌∷◌};
ghost use Rattle.store_cells.specs.Changes.{Does};
ghost use Rattle.store_frames.specs.Operands.{shown};
ghost use Rattle.stack_code.specs.Machine as machine;

use mql_meaning::Store;
use std::alloc::Global;
use store_cells::{End, Fault};
use store_frames::Operand;
use store_places::{read, write};

/// A place gets a value.
pub(crate) fn writes(
    alloc: Global,
    value: Operand,
    place: Operand,
    store: &mut Store,
) -> Result<(), Fault>
    ensures { Does (machine.writes (shown value ∷ shown place ∷ [])) result store.old store.new }
{
    let Operand::Value(value) = value else {
        return Err(Fault::End(End::Stuck));
    };
    let Operand::Place(place) = place else {
        return Err(Fault::End(End::Stuck));
    };
    write(alloc, value, &place, store)
}

/// A place gets the value of another one.
pub(crate) fn copies(
    alloc: Global,
    from: Operand,
    to: Operand,
    store: &mut Store,
) -> Result<(), Fault>
    ensures { Does (machine.copies (shown from ∷ shown to ∷ [])) result store.old store.new }
{
    let Operand::Place(from) = from else {
        return Err(Fault::End(End::Stuck));
    };
    let Operand::Place(to) = to else {
        return Err(Fault::End(End::Stuck));
    };
    let value = read(alloc, &from, store)?;
    write(alloc, value, &to, store)
}
