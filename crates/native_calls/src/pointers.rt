//! Pointers to objects: GetPointer and CheckPointer.
ghost use Rattle.std.specs.Prelude.{◌≡◌, map, slice_get};
ghost use Rattle.mql_meaning.specs.Objects.{status_of};
ghost use Rattle.mql_meaning.specs.Places.{object_in};
ghost use Rattle.mql_meaning.specs.References.{points, tells_status};
ghost use Rattle.store_cells.specs.Changes.{Gives};
ghost use Rattle.store_frames.specs.Operands.{shown};

use fx8::IntKind;
use mql_mean::Value;
use mql_meaning::Store;
use store_cells::{End, Fault};
use store_frames::Operand;
use store_places::{object_in, pointer_of};

/// GetPointer: the pointer to the object at a place.
pub(crate) fn points(operands: &[Operand], store: &Store) -> Result<Value, Fault>
    ensures { Gives (points (map shown operands.now)) result store.now }
{
    match operands {
        [Operand::Place(place)] => pointer_of(place, store),
        [Operand::Value(_)] => Err(Fault::End(End::Stuck)),
        [] => Err(Fault::End(End::Stuck)),
        [_, _, ..] => Err(Fault::End(End::Stuck)),
    }
}

/// What a pointer of a serial is: 0 to no object that lives, 1 to a dynamic one, 2 to an automatic one.
fn status(serial: u64, store: &Store) -> u8
    ensures { result ≡ status_of (object_in store.now.heap serial) }
{
    match object_in(store.heap.as_slice(), serial) {
        Some(object) => { if object.automatic { 2 } else { 1 } }
        None => 0,
    }
}

/// CheckPointer: what a pointer is.
pub(crate) fn tells_status(operands: &[Operand], store: &Store) -> Result<Value, Fault>
    ensures { Gives (tells_status (map shown operands.now)) result store.now }
{
    match operands {
        [Operand::Value(Value::Ptr(serial))] => {
            Ok(Value::Num(IntKind::Int, status(*serial, store) as i128))
        }
        _ => Err(Fault::End(End::Stuck)),
    }
}
