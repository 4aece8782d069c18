//! Arrays with other elements.
ghost use Rattle.std.specs.Prelude.{◌≡◌, IfOk, drop, take};
ghost use Rattle.mql_meaning.specs.ArrayFunctions.{first_or, refilled};
ghost use Rattle.native_arrays.specs.Lists.{refilled_each};

use crate::elements::leaf_count;
use fx8::{ItemList, OutOfMemory};
use mql_meaning::Cell;
use std::alloc::Global;
use store_cells::{copied, copied_all};

/// What stands behind a place; nothing where the place is past the end.
#[tactic(auto, using(crate::proofs::Parts::behind_is, crate::proofs::Parts::behind_end))]
pub fn behind(cells: &[Cell], place: u64) -> &[Cell]
    ensures { result.now ≡ drop place cells.now }
{
    if place >= cells.len() as u64 {
        return &[];
    }
    &cells[place as usize..]
}

/// At most so many cells.
pub fn first_of(cells: &[Cell], count: u64) -> &[Cell]
    ensures { result.now ≡ take count cells.now }
{
    if count >= cells.len() as u64 {
        return cells;
    }
    &cells[..count as usize]
}

/// A cell that is the same as the first of some, or as one in its place.
fn first_or(alloc: Global, cell: &Cell, leaves: &[Cell]) -> Result<Cell, OutOfMemory>
    ensures { IfOk result (λ c. c ≡ first_or cell.now leaves.now) }
{
    match leaves {
        [] => copied(alloc, cell),
        [leaf, ..] => copied(alloc, leaf),
    }
}

/// An array with other elements, as many as it has; where there are fewer, the rest stays. The array itself and
/// the elements stay as they are.
#[cycle(refills)]
#[tactic(auto, using(crate::proofs::Rows::refilled_at, crate::proofs::Rows::refilled_same, crate::proofs::Rows::refilled_one, crate::proofs::Rows::refilled_one_same, crate::proofs::Rows::refilled_fields, crate::proofs::Rows::refilled_fields_same))]
pub fn refilled(alloc: Global, cell: &Cell, leaves: &[Cell]) -> Result<Cell, OutOfMemory>
    ensures { IfOk result (λ c. c ≡ refilled cell.now leaves.now) }
{
    match cell {
        Cell::One(_) => first_or(alloc, cell, leaves),
        Cell::Array(dynamic, series, unit, items) => {
            let items = refilled_each(alloc, items.as_slice(), leaves)?;
            let unit = copied_all(alloc, unit.as_slice())?;
            Ok(Cell::Array(*dynamic, *series, unit, items))
        }
        Cell::Structure(_) => first_or(alloc, cell, leaves),
    }
}

/// Cells with other elements, as many as they have.
#[cycle(refills)]
fn refilled_each(
    alloc: Global,
    items: &[Cell],
    leaves: &[Cell],
) -> Result<ItemList<Cell>, OutOfMemory>
    ensures { IfOk result (λ cs. cs ≡ refilled_each items.now leaves.now) }
{
    let mut rest = leaves;
    let mut new = ItemList::new(alloc);
    for item in items {
        let count = leaf_count(item)?;
        new.push(refilled(alloc, item, first_of(rest, count))?)?;
        rest = behind(rest, count);
    }
    Ok(new)
}
