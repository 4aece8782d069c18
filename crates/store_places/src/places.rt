//! Places, made.
ghost use Rattle.std.specs.Prelude.{◌≡◌, IfOk};
ghost use Rattle.mql_meaning.specs.Places.{at_root, field_place};

use fx8::{ItemList, OutOfMemory};
use mql_meaning::{Place, Root};
use std::alloc::Global;

/// The place of a whole variable or object. Takes no memory.
pub fn at_root(alloc: Global, root: Root) -> Place
    ensures { result ≡ at_root root }
{
    Place {
        root,
        path: ItemList::new(alloc),
    }
}

/// Another place that is the same.
pub fn copied_place(alloc: Global, place: &Place) -> Result<Place, OutOfMemory>
    ensures { IfOk result (λ copy. copy ≡ place.now) }
{
    let path = ItemList::from_slice(alloc, place.path.as_slice())?;
    Ok(Place {
        root: place.root,
        path,
    })
}

/// The place of a field, or of an element by storage.
pub fn field_place(i: u64, place: Place) -> Result<Place, OutOfMemory>
    ensures { IfOk result (λ field. field ≡ field_place i place) }
{
    let Place { root, mut path } = place;
    path.push(i)?;
    Ok(Place { root, path })
}
