//! How many cells variables take.
ghost use Rattle.std.specs.Prelude.{◌≡◌, ◌≤◌, ◌^◌, MatchOption};
ghost use Rattle.mql_meaning.specs.Cells.{total, weight};

use mql_mean::Value;
use mql_meaning::Cell;

/// How many cells a variable takes, where 64 bits hold their number.
#[cycle(counts)]
#[tactic(auto, using(crate::proofs::Rows::weight_at, crate::proofs::Rows::weight_same, crate::proofs::Rows::weight_structure))]
pub fn weight(cell: &Cell) -> Option<u64>
    ensures { MatchOption result (2 ^ 64 ≤ weight cell.now) (λ n. n ≡ weight cell.now) }
{
    match cell {
        Cell::One(Value::Str(text)) => Some(text.len().div_ceil(4) + 1),
        Cell::One(_) => Some(1),
        Cell::Array(_dynamic, _series, _unit, items) => total(items.as_slice())?.checked_add(1),
        Cell::Structure(fields) => total(fields.as_slice()),
    }
}

/// How many cells variables take, where 64 bits hold their number.
#[cycle(counts)]
pub fn total(cells: &[Cell]) -> Option<u64>
    ensures { MatchOption result (2 ^ 64 ≤ total cells.now) (λ n. n ≡ total cells.now) }
{
    let mut all: u64 = 0;
    for cell in cells {
        let Some(more) = weight(cell) else {
            return None;
        };
        let Some(sum) = all.checked_add(more) else {
            return None;
        };
        all = sum;
    }
    Some(all)
}
