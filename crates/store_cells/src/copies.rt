//! Cells that are the same, and the values that cells hold.
ghost use Rattle.std.specs.Prelude.{◌≡◌, IfOk, map};
ghost use Rattle.mql_meaning.specs.Cells.{told};

use fx8::{ItemList, OutOfMemory};
use mql_mean::{Value, ValueList};
use mql_meaning::Cell;
use std::alloc::Global;

/// Another cell that is the same.
#[cycle(copied)]
pub fn copied(alloc: Global, cell: &Cell) -> Result<Cell, OutOfMemory>
    ensures { IfOk result (λ copy. copy ≡ cell.now) }
{
    match cell {
        Cell::One(value) => Ok(Cell::One(value.copy(alloc)?)),
        Cell::Array(dynamic, series, unit, items) => {
            let unit = copied_all(alloc, unit.as_slice())?;
            let items = copied_all(alloc, items.as_slice())?;
            Ok(Cell::Array(*dynamic, *series, unit, items))
        }
        Cell::Structure(fields) => Ok(Cell::Structure(copied_all(alloc, fields.as_slice())?)),
    }
}

/// Cells that are the same.
#[cycle(copied)]
pub fn copied_all(alloc: Global, cells: &[Cell]) -> Result<ItemList<Cell>, OutOfMemory>
    ensures { IfOk result (λ copies. copies ≡ cells.now) }
{
    let mut copies = ItemList::new(alloc);
    for cell in cells {
        copies.push(copied(alloc, cell)?)?;
    }
    Ok(copies)
}

/// The value that a cell holds.
#[cycle(told)]
#[tactic(auto, using(crate::proofs::Rows::told_at, crate::proofs::Rows::told_same, crate::proofs::Rows::told_structure))]
pub fn told(alloc: Global, cell: &Cell) -> Result<Value, OutOfMemory>
    ensures { IfOk result (λ value. value ≡ told cell.now) }
{
    match cell {
        Cell::One(value) => Ok(value.copy(alloc)?),
        Cell::Array(_dynamic, _series, _unit, items) => Ok(Value::Arr(told_all(
            alloc,
            items.as_slice(),
        )?)),
        Cell::Structure(fields) => Ok(Value::Rec(told_all(alloc, fields.as_slice())?)),
    }
}

/// The values that cells hold.
#[cycle(told)]
pub fn told_all(alloc: Global, cells: &[Cell]) -> Result<ValueList, OutOfMemory>
    ensures { IfOk result (λ values. values ≡ map told cells.now) }
{
    let mut values = ItemList::new(alloc);
    for cell in cells {
        values.push(told(alloc, cell)?)?;
    }
    Ok(values)
}
