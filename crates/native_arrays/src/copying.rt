//! Elements that get values (MQL5 Reference, ArrayCopy, ArrayInitialize).
ghost use Rattle.std.specs.Prelude.{◌≡◌};
ghost use Rattle.mql_meaning.specs.declared.cell.Cell.{Cell};
ghost use Rattle.mql_meaning.specs.declared.store.Store.{Store};
ghost use Rattle.mql_meaning.specs.Changes.{for_each, the};
ghost use Rattle.mql_meaning.specs.Cells.{put};
ghost use Rattle.mql_meaning.specs.ArrayFunctions.{copied, copy_at, filled, put_number};
ghost use Rattle.native_arrays.specs.Runs.{one_copied};
ghost use Rattle.store_cells.specs.Changes.{Gives};

use crate::elements::leaves;
use crate::refills::{behind, first_of, refilled};
use fx8::ItemList;
use mql_mean::Value;
use mql_meaning::{Cell, Store};
use std::alloc::Global;
use store_cells::{End, Fault, copied, copied_all, put, told};
use store_values::{convert, sort_of};

/// A cell that gets a value, where it is of the cell's type.
fn put_own(alloc: Global, cell: &Cell, value: Value) -> Result<Cell, Fault>
    ensures { (store : Store) → Gives (the (put cell.now value)) result store }
{
    match put(alloc, cell, value)? {
        Some(new) => Ok(new),
        None => Err(Fault::End(End::Stuck)),
    }
}

/// A cell that gets a number, which is taken into its type.
#[tactic(auto, using(crate::proofs::Passing::fails))]
pub fn put_number(alloc: Global, cell: &Cell, value: &Value, store: &Store) -> Result<Cell, Fault>
    ensures { Gives (put_number cell.now value.now) result store.now }
{
    let Cell::One(own) = cell else {
        return Err(Fault::End(End::Stuck));
    };
    let Some(sort) = sort_of(own) else {
        return Err(Fault::End(End::Stuck));
    };
    let value = convert(alloc, sort, value.copy(alloc)?, store)?;
    put_own(alloc, cell, value)
}

/// An element that gets the value of the first of others, where there is one.
fn one_copied(alloc: Global, cell: &Cell, from: &[Cell], store: &Store) -> Result<Cell, Fault>
    ensures { Gives (one_copied cell.now from.now) result store.now }
{
    match from {
        [] => Ok(copied(alloc, cell)?),
        [first, ..] => {
            let value = told(alloc, first)?;
            match put(alloc, cell, told(alloc, first)?)? {
                Some(new) => Ok(new),
                None => put_number(alloc, cell, &value, store),
            }
        }
    }
}

/// Elements that get the values of others, as many as there are of both.
#[tactic(auto, using(crate::proofs::Passing::ahead_nil, crate::proofs::Passing::copied_done, crate::proofs::Passing::copied_fails, crate::proofs::Passing::copied_ends))]
fn copied_over(
    alloc: Global,
    cells: &[Cell],
    from: &[Cell],
    store: &Store,
) -> Result<ItemList<Cell>, Fault>
    ensures { Gives (copied cells.now from.now) result store.now }
{
    let mut new = ItemList::new(alloc);
    let mut rest = from;
    for cell in cells {
        new.push(one_copied(alloc, cell, rest, store)?)?;
        rest = behind(rest, 1);
    }
    Ok(new)
}

/// An array whose elements from a place on get the values of others, as many as there are of both. The array
/// itself stays as it is.
#[tactic(auto, using(crate::proofs::Passing::fails))]
pub fn copy_at(
    alloc: Global,
    target: &Cell,
    before: u64,
    from: &[Cell],
    store: &Store,
) -> Result<Cell, Fault>
    ensures { Gives (copy_at target.now before from.now) result store.now }
{
    let old = leaves(alloc, target)?;
    let changed = copied_over(alloc, behind(old.as_slice(), before), from, store)?;
    let mut new = copied_all(alloc, first_of(old.as_slice(), before))?;
    new.append(changed)?;
    Ok(refilled(alloc, target, new.as_slice())?)
}

/// Elements that get a number each, which is taken into their type.
#[tactic(auto, using(crate::proofs::Passing::ahead_nil, crate::proofs::Passing::each_done, crate::proofs::Passing::each_fails, crate::proofs::Passing::each_ends))]
fn filled_each(
    alloc: Global,
    cells: &[Cell],
    value: &Value,
    store: &Store,
) -> Result<ItemList<Cell>, Fault>
    ensures { Gives (for_each (λ (c : Cell). put_number c value.now) cells.now) result store.now }
{
    let mut new = ItemList::new(alloc);
    for cell in cells {
        new.push(put_number(alloc, cell, value, store)?)?;
    }
    Ok(new)
}

/// An array whose elements get a number each, which is taken into their type (MQL5 Reference, ArrayInitialize).
/// The array itself stays as it is.
#[tactic(auto, using(crate::proofs::Passing::fails))]
pub fn filled(alloc: Global, target: &Cell, value: &Value, store: &Store) -> Result<Cell, Fault>
    ensures { Gives (filled target.now value.now) result store.now }
{
    let old = leaves(alloc, target)?;
    let new = filled_each(alloc, old.as_slice(), value, store)?;
    Ok(refilled(alloc, target, new.as_slice())?)
}
