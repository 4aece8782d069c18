//! Elements of arrays.
ghost use Rattle.std.specs.Prelude.{◌≡◌};
ghost use Rattle.mql_meaning.specs.declared.cell.Cell.{out-Cell};
ghost use Rattle.mql_meaning.specs.Places.{element_place, index, number_of, position};
ghost use Rattle.store_cells.specs.Changes.{Gives};
ghost use Rattle.store_places.specs.Puts.{element_of, within};
ghost use Rattle.store_places.specs.Seen.{seen};

use crate::lines::failed;
use crate::looks::{Seen, cell_at};
use crate::places::field_place;
use mql_mean::{ErrorKind, Value};
use mql_meaning::{Cell, Place, Store};
use store_cells::{End, Fault};

/// Where an element stands by storage; a series is indexed from its end.
pub fn position(series: bool, size: u64, i: u64) -> u64
    ensures { result ≡ position series size i }
{
    if series {
        size.saturating_sub(1).saturating_sub(i)
    } else {
        i
    }
}

/// Which of so many elements a number is; `None` exactly where it is none.
fn within(i: i128, size: u64) -> Option<u64>
    ensures { result ≡ within i size }
{
    if i < 0 {
        return None;
    }
    if i < size as i128 {
        Some(i as u64)
    } else {
        None
    }
}

/// The place of one of so many elements.
fn element_of(
    series: bool,
    size: u64,
    i: Option<u64>,
    place: Place,
    store: &Store,
) -> Result<Place, Fault>
    ensures { Gives (element_of series size i place) result store.now }
{
    match i {
        Some(i) => Ok(field_place(position(series, size, i), place)?),
        None => Err(Fault::End(failed(ErrorKind::ArrayRange, store))),
    }
}

/// The place of an element of an array; an index out of range is an error at the line in force.
#[tactic(auto, using(crate::proofs::Changed::element_is))]
pub fn element_place(cell: &Cell, i: i128, place: Place, store: &Store) -> Result<Place, Fault>
    ensures { Gives (element_place (out-Cell cell.now) i place) result store.now }
{
    match cell {
        Cell::Array(_dynamic, series, _unit, items) => {
            let size = items.len();
            let position = within(i, size);
            element_of(*series, size, position, place, store)
        }
        Cell::One(_) => Err(Fault::End(End::Stuck)),
        Cell::Structure(_) => Err(Fault::End(End::Stuck)),
    }
}

/// The place of an element of what is seen.
fn element_seen(part: Seen<'_>, i: i128, place: Place, store: &Store) -> Result<Place, Fault>
    ensures { Gives (element_place (out-Cell (seen part.entry)) i place) result store.now }
{
    match part {
        Seen::Cell(cell) => element_place(cell, i, place, store),
        Seen::Object(_) => Err(Fault::End(End::Stuck)),
    }
}

/// The number of a value of an integer kind.
pub(crate) fn number_of(value: &Value) -> Option<i128>
    ensures { result ≡ number_of value.now }
{
    match value {
        Value::Num(_, number) => Some(*number),
        _ => None,
    }
}

/// The place of the element of the array at a place that has an index.
pub fn index(place: Place, value: &Value, store: &Store) -> Result<Place, Fault>
    ensures { Gives (index place value.now) result store.now }
{
    let Some(i) = number_of(value) else {
        return Err(Fault::End(End::Stuck));
    };
    match cell_at(&place, store) {
        Ok(part) => element_seen(part, i, place, store),
        Err(end) => Err(Fault::End(end)),
    }
}
