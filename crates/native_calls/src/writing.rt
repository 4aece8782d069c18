//! Cells that are put at the places of a call.
ghost use Rattle.std.specs.Prelude.{◌≡◌, ◌+◌, map};
ghost use Rattle.mql_meaning.specs.declared.place.Place.{Place};
ghost use Rattle.mql_meaning.specs.Calls.{places_in};
ghost use Rattle.mql_meaning.specs.Cells.{weight};
ghost use Rattle.native_calls.specs.Written.{Recounts, put_counted, replace_counted};
ghost use Rattle.store_cells.specs.Changes.{Does, Meets};
ghost use Rattle.store_frames.specs.Operands.{shown};
ghost use Rattle.store_places.specs.Puts.{Counted};

use fx8::{ItemList, Stack};
use mql_mean::ErrorKind;
use mql_meaning::{Cell, Place, Store};
use store_cells::{End, Fault, weight};
use store_frames::Operand;
use store_places::{failed, more_cells, put_base};

/// How many cells are in use once a cell has come; `None` exactly where they are too many.
fn with_cell(left: u64, new: &Cell) -> Option<u64>
    ensures { Counted (left + weight new.now) result }
{
    let Some(more) = weight(new) else {
        return None;
    };
    more_cells(left, more)
}

/// How many cells are in use once a cell is put at any place where one stood that took so many.
fn recounted(old: u64, new: &Cell, store: &Store) -> Result<u64, End>
    ensures { (p : Place) → Recounts p old new.now result store.now }
{
    match with_cell(store.cells.saturating_sub(old), new) {
        Some(cells) => Ok(cells),
        None => Err(failed(ErrorKind::CellsExhausted, store)),
    }
}

/// A cell is put at a place where one stood that took so many cells. Takes no memory.
fn replace(place: &Place, old: u64, new: Cell, store: &mut Store) -> Result<(), Fault>
    ensures { Meets (replace_counted place.now old new) result store.old store.new }
{
    match recounted(old, &new, store) {
        Ok(cells) => {
            store.cells = cells;
            put_base(place.root, place.path.as_slice(), new, store);
            Ok(())
        }
        Err(end) => Err(Fault::End(end)),
    }
}

/// Cells are put at the places among operands, one after another; the places of which there are no new cells
/// stay. The counts are those of the cells that are replaced. Takes no memory.
pub(crate) fn put_counted(
    operands: &[Operand],
    counts: ItemList<u64>,
    news: ItemList<Cell>,
    store: &mut Store,
) -> Result<(), Fault>
    ensures { Does (put_counted (places_in (map shown operands.now)) counts news) result store.old store.new }
{
    let mut olds = Stack::of_list(counts);
    let mut rest = Stack::of_list(news);
    for operand in operands {
        match operand {
            Operand::Value(_) => {}
            Operand::Place(place) => {
                let Some(old) = olds.pop() else {
                    return Ok(());
                };
                let Some(new) = rest.pop() else {
                    return Ok(());
                };
                match replace(place, old, new, store) {
                    Ok(()) => {}
                    Err(fault) => return Err(fault),
                }
            }
        }
    }
    Ok(())
}
