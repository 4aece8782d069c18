//! Elements as numbers.
ghost use Rattle.std.specs.Prelude.{◌≡◌, IfOk};
ghost use Rattle.mql_meaning.specs.ArrayFunctions.{leaf_number, numbers};

use fx8::{ItemList, OutOfMemory};
use mql_mean::Value;
use mql_meaning::Cell;
use std::alloc::Global;

/// The number of an element, of a `double` in units of 10^-8; `None` exactly where it has none.
pub fn leaf_number(cell: &Cell) -> Option<i128>
    ensures { result ≡ leaf_number cell.now }
{
    match cell {
        Cell::One(Value::Num(_, number)) => Some(*number),
        Cell::One(Value::Dbl(number)) => Some(number.units() as i128),
        Cell::One(_) => None,
        Cell::Array(_, _, _, _) => None,
        Cell::Structure(_) => None,
    }
}

/// The numbers of elements; `None` exactly where one of them has none.
#[tactic(auto, using(crate::proofs::Listed::before_none, crate::proofs::Listed::before_one))]
pub fn numbers(alloc: Global, cells: &[Cell]) -> Result<Option<ItemList<i128>>, OutOfMemory>
    ensures { IfOk result (λ ns. ns ≡ numbers cells.now) }
{
    let mut all = ItemList::new(alloc);
    for cell in cells {
        let Some(number) = leaf_number(cell) else {
            return Ok(None);
        };
        all.push(number)?;
    }
    Ok(Some(all))
}
