//! The elements of arrays in all their dimensions.
ghost use Rattle.std.specs.Prelude.{◌≡◌, [], ◌∷◌, IfOk, length};
ghost use Rattle.mql_meaning.specs.ArrayFunctions.{leaves, per_place};
ghost use Rattle.native_arrays.specs.Lists.{leaves_of};

use fx8::{ItemList, OutOfMemory};
use mql_meaning::Cell;
use std::alloc::Global;
use store_cells::copied;

/// A list of a cell that is the same as another one.
fn alone(alloc: Global, cell: &Cell) -> Result<ItemList<Cell>, OutOfMemory>
    ensures { IfOk result (λ cs. cs ≡ cell.now ∷ []) }
{
    let mut cells = ItemList::new(alloc);
    cells.push(copied(alloc, cell)?)?;
    Ok(cells)
}

/// The elements of an array in all its dimensions, in order of storage; what is no array is its own one
/// element. The array itself stays as it is.
#[cycle(leaves)]
#[tactic(auto, using(crate::proofs::Rows::leaves_at, crate::proofs::Rows::leaves_same, crate::proofs::Rows::leaves_one, crate::proofs::Rows::leaves_one_same, crate::proofs::Rows::leaves_fields, crate::proofs::Rows::leaves_fields_same))]
pub fn leaves(alloc: Global, cell: &Cell) -> Result<ItemList<Cell>, OutOfMemory>
    ensures { IfOk result (λ cs. cs ≡ leaves cell.now) }
{
    match cell {
        Cell::One(_) => alone(alloc, cell),
        Cell::Array(_, _, _, items) => leaves_of(alloc, items.as_slice()),
        Cell::Structure(_) => alone(alloc, cell),
    }
}

/// The elements of cells.
#[cycle(leaves)]
fn leaves_of(alloc: Global, items: &[Cell]) -> Result<ItemList<Cell>, OutOfMemory>
    ensures { IfOk result (λ cs. cs ≡ leaves_of items.now) }
{
    let mut all = ItemList::new(alloc);
    for item in items {
        all.append(leaves(alloc, item)?)?;
    }
    Ok(all)
}

/// How many elements an array has in all its dimensions; `OutOfMemory` where 64 bits do not hold their number.
#[cycle(counts)]
#[tactic(auto, using(crate::proofs::Rows::leaves_at, crate::proofs::Rows::leaves_same, crate::proofs::Rows::leaves_one, crate::proofs::Rows::leaves_one_same, crate::proofs::Rows::leaves_fields, crate::proofs::Rows::leaves_fields_same))]
pub fn leaf_count(cell: &Cell) -> Result<u64, OutOfMemory>
    ensures { IfOk result (λ n. n ≡ length (leaves cell.now)) }
{
    match cell {
        Cell::One(_) => Ok(1),
        Cell::Array(_, _, _, items) => leaf_total(items.as_slice()),
        Cell::Structure(_) => Ok(1),
    }
}

/// How many elements cells have.
#[cycle(counts)]
fn leaf_total(items: &[Cell]) -> Result<u64, OutOfMemory>
    ensures { IfOk result (λ n. n ≡ length (leaves_of items.now)) }
{
    let mut all: u64 = 0;
    for item in items {
        let more = leaf_count(item)?;
        match all.checked_add(more) {
            Some(sum) => all = sum,
            None => return Err(OutOfMemory),
        }
    }
    Ok(all)
}

/// How many elements a place of an array's first dimension has, as its unit tells; `OutOfMemory` where 64 bits
/// do not hold their number.
pub fn per_place(unit: &[Cell]) -> Result<u64, OutOfMemory>
    ensures { IfOk result (λ n. n ≡ per_place unit.now) }
{
    match unit {
        [] => Ok(1),
        [element, ..] => leaf_count(element),
    }
}
