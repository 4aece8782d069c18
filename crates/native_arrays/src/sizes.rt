//! Sizes of arrays (MQL5 Reference, ArrayRange, ArrayResize).
ghost use Rattle.std.specs.Prelude.{◌≡◌, ◌++◌, ◌+◌, ◌-◌, ◌*◌, ◌/◌, Bool, IfOk, length, replicate, take};
ghost use Rattle.mql_meaning.specs.ArrayFunctions.{added, grown, per_place, range};
ghost use Rattle.native_arrays.specs.Lists.{parts};

use crate::elements::per_place;
use fx8::{ItemList, OutOfMemory};
use mql_meaning::Cell;
use std::alloc::Global;
use store_cells::copied;

/// How many elements a dimension of an array has, the first being 0; `None` exactly where the array has no
/// such dimension.
#[tactic(auto, using(crate::proofs::Ranges::no_unit, crate::proofs::Ranges::next_range))]
pub fn range(dimension: u64, unit: &[Cell], items: &[Cell]) -> Option<u64>
    ensures { result ≡ range dimension unit.now items.now }
{
    if dimension == 0 {
        return Some(items.len() as u64);
    }
    match unit {
        [] => None,
        [element, ..] => match element {
            Cell::Array(_, _, unit, items) => {
                range(dimension - 1, unit.as_slice(), items.as_slice())
            }
            Cell::One(_) => None,
            Cell::Structure(_) => None,
        },
    }
}

/// Adds so many cells that are the same.
#[tactic(auto, using(crate::proofs::More::one_more))]
fn with_more(
    alloc: Global,
    items: ItemList<Cell>,
    cell: &Cell,
    count: u64,
) -> Result<ItemList<Cell>, OutOfMemory>
    ensures { IfOk result (λ list. list ≡ items ++ replicate count cell.now) }
{
    let mut items = items;
    for i in 0..count {
        items.push(copied(alloc, cell)?)?;
    }
    Ok(items)
}

/// The elements of an array with so many places of the first dimension; new ones begin as zero, as the unit
/// tells.
pub fn resized(
    alloc: Global,
    count: u64,
    unit: &[Cell],
    items: ItemList<Cell>,
) -> Result<ItemList<Cell>, OutOfMemory>
    ensures { IfOk result (λ cs. cs ≡ take count items ++ added unit.now (count - length items)) }
{
    let more = count.saturating_sub(items.len());
    let mut items = items;
    items.truncate(count);
    match unit {
        [] => Ok(items),
        [cell, ..] => with_more(alloc, items, cell, more),
    }
}

/// How many elements an array has in all its dimensions; `OutOfMemory` where 64 bits do not hold their number
/// (MQL5 Reference, ArraySize).
pub fn size(unit: &[Cell], items: &[Cell]) -> Result<u64, OutOfMemory>
    ensures { IfOk result (λ n. n ≡ length items.now * per_place unit.now) }
{
    let each = per_place(unit)?;
    match (items.len() as u64).checked_mul(each) {
        Some(count) => Ok(count),
        None => Err(OutOfMemory),
    }
}

/// How many places are needed for elements behind others, so many in each place.
#[tactic(auto, using(crate::proofs::Growing::by_nothing))]
fn places(before: u64, count: u64, each: u64) -> Result<u64, OutOfMemory>
    ensures { IfOk result (λ n. n ≡ (before + count + each - 1) / each) }
{
    if each == 0 {
        return Ok(0);
    }
    let Some(elements) = before.checked_add(count) else {
        return Err(OutOfMemory);
    };
    let Some(room) = elements.checked_add(each) else {
        return Err(OutOfMemory);
    };
    Ok((room - 1) / each)
}

/// The elements of an array whose size changes once so many elements are put behind so many: places are added
/// where there are too few; nothing put adds none (MQL5 Reference, ArrayCopy).
#[tactic(auto, using(crate::proofs::Growing::nothing_put, crate::proofs::Growing::enough, crate::proofs::Growing::more))]
pub fn grown(
    alloc: Global,
    before: u64,
    count: u64,
    unit: &[Cell],
    items: ItemList<Cell>,
) -> Result<ItemList<Cell>, OutOfMemory>
    ensures { (dynamic series : Bool) → IfOk result (λ cs.
        grown (parts dynamic series unit.now items) before count ≡ parts dynamic series unit.now cs) }
{
    if count == 0 {
        return Ok(items);
    }
    let places = places(before, count, per_place(unit)?)?;
    if items.len() < places {
        resized(alloc, places, unit, items)
    } else {
        Ok(items)
    }
}
