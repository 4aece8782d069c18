//! Constants, and operands once more.
ghost use Rattle.std.specs.Prelude.{◌≡◌, IfOk};
ghost use Rattle.mql_meaning.specs.Operands.{literal};
ghost use Rattle.store_cells.specs.Changes.{Gives};

use fx8::{ItemList, OutOfMemory};
use mql_mean::Value;
use mql_meaning::Store;
use std::alloc::Global;
use store_cells::Fault;
use store_frames::Operand;
use store_places::copied_place;
use store_values::text;

/// The value of a constant; a string of more than 65,536 units is an error at the line in force.
pub fn constant(alloc: Global, value: &Value, store: &Store) -> Result<Value, Fault>
    ensures { Gives (literal value.now) result store.now }
{
    match value {
        Value::Str(units) => text(ItemList::from_slice(alloc, units.as_slice())?, store),
        _ => Ok(value.copy(alloc)?),
    }
}

/// Another operand that is the same.
pub fn copied_operand(alloc: Global, operand: &Operand) -> Result<Operand, OutOfMemory>
    ensures { IfOk result (λ copy. copy ≡ operand.now) }
{
    match operand {
        Operand::Value(value) => Ok(Operand::Value(value.copy(alloc)?)),
        Operand::Place(place) => Ok(Operand::Place(copied_place(alloc, place)?)),
    }
}
