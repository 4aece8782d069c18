//! Variables as they began (MQL5 Reference, Common Functions, ZeroMemory).
ghost use Rattle.std.specs.Prelude.{◌≡◌, IfOk, map};
ghost use Rattle.mql_mean.specs.declared.value.Value.{out-Value};
ghost use Rattle.mql_meaning.specs.ArrayFunctions.{zero_value, zeroed};

use fx8::{Fix8, ItemList, OutOfMemory};
use mql_mean::Value;
use mql_meaning::Cell;
use std::alloc::Global;
use store_cells::copied_all;

/// A value as it began: a number is 0, a string empty, a pointer `NULL`.
fn zero_value(alloc: Global, value: &Value) -> Result<Value, OutOfMemory>
    ensures { IfOk result (λ v. v ≡ zero_value (out-Value value.now)) }
{
    match value {
        Value::Num(kind, _) => Ok(Value::Num(*kind, 0)),
        Value::Dbl(_) => Ok(Value::Dbl(Fix8::of_units(0))),
        Value::Str(_) => Ok(Value::Str(ItemList::new(alloc))),
        Value::Ptr(_) => Ok(Value::Ptr(0)),
        Value::Arr(_) => value.copy(alloc),
        Value::Rec(_) => value.copy(alloc),
    }
}

/// A variable as it began; an array keeps its size. The variable itself stays as it is.
#[cycle(zeroing)]
#[tactic(auto, using(crate::proofs::Rows::zeroed_at, crate::proofs::Rows::zeroed_same, crate::proofs::Rows::zeroed_structure))]
pub fn zeroed(alloc: Global, cell: &Cell) -> Result<Cell, OutOfMemory>
    ensures { IfOk result (λ c. c ≡ zeroed cell.now) }
{
    match cell {
        Cell::One(value) => Ok(Cell::One(zero_value(alloc, value)?)),
        Cell::Array(dynamic, series, unit, items) => {
            let unit = copied_all(alloc, unit.as_slice())?;
            let items = zeroed_each(alloc, items.as_slice())?;
            Ok(Cell::Array(*dynamic, *series, unit, items))
        }
        Cell::Structure(fields) => Ok(Cell::Structure(zeroed_each(alloc, fields.as_slice())?)),
    }
}

/// Variables as they began.
#[cycle(zeroing)]
fn zeroed_each(alloc: Global, cells: &[Cell]) -> Result<ItemList<Cell>, OutOfMemory>
    ensures { IfOk result (λ cs. cs ≡ map zeroed cells.now) }
{
    let mut new = ItemList::new(alloc);
    for cell in cells {
        new.push(zeroed(alloc, cell)?)?;
    }
    Ok(new)
}
