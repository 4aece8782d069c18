//! The locals of a call.
ghost use Rattle.std.specs.Prelude.{◌≡◌, ◌≤◌, ◌^◌, [], ◌∷◌, Some, true, false, IfOk, MatchOption, map};
ghost use Rattle.mql_meaning.specs.declared.cell.Cell.{Cell};
ghost use Rattle.mql_meaning.specs.Frames.{held, slots};
ghost use Rattle.store_frames.specs.Operands.{shown};
ghost use Rattle.store_frames.specs.Slots.{ahead, slot};

use crate::operand::Operand;
use fx8::{ItemList, OutOfMemory, Stack};
use mql_meaning::{Cell, Slot};
use std::alloc::Global;
use store_cells::{put, weight};

/// A parameter that is lent a place.
fn lent_slot(operand: Operand) -> Option<Slot>
    ensures { (c : Cell) → result ≡ slot true c (shown operand) }
{
    match operand {
        Operand::Place(place) => Some(Slot::Lent(place)),
        Operand::Value(_) => None,
    }
}

/// A parameter that gets a value.
fn own_slot(alloc: Global, cell: Cell, operand: Operand) -> Result<Option<Slot>, OutOfMemory>
    ensures { IfOk result (λ s. s ≡ slot false cell (shown operand)) }
{
    match operand {
        Operand::Value(value) => match put(alloc, &cell, value)? {
            Some(cell) => Ok(Some(Slot::Own(cell))),
            None => Ok(None),
        },
        Operand::Place(_) => Ok(None),
    }
}

/// A parameter, by reference or by value.
fn slot(
    alloc: Global,
    by_reference: bool,
    cell: Cell,
    operand: Operand,
) -> Result<Option<Slot>, OutOfMemory>
    ensures { IfOk result (λ s. s ≡ slot by_reference cell (shown operand)) }
{
    if by_reference {
        Ok(lent_slot(operand))
    } else {
        own_slot(alloc, cell, operand)
    }
}

/// The locals behind the parameters, which hold what they begin with.
fn own_slots(made: ItemList<Slot>, rest: Stack<Cell>) -> Result<ItemList<Slot>, OutOfMemory>
    ensures { IfOk result (λ ss. Some ss ≡ ahead made (slots rest [] [])) }
{
    let mut made = made;
    let mut rest = rest;
    while let Some(cell) = rest.pop() {
        made.push(Slot::Own(cell))?;
    }
    Ok(made)
}

/// The locals of a call at its beginning: the parameters, by reference or by value, and then the others, as
/// they begin; `None` exactly where the operands are not what the parameters take.
pub fn slots(
    alloc: Global,
    cells: ItemList<Cell>,
    lent: &[bool],
    operands: Stack<Operand>,
) -> Result<Option<ItemList<Slot>>, OutOfMemory>
    ensures { IfOk result (λ ss. ss ≡ slots cells lent.now (map shown operands)) }
{
    let mut cells = Stack::of_list(cells);
    let mut rest = operands;
    let mut made = ItemList::new(alloc);
    for by_reference in lent {
        let Some(cell) = cells.pop() else {
            return Ok(None);
        };
        let Some(operand) = rest.pop() else {
            return Ok(None);
        };
        let Some(parameter) = slot(alloc, *by_reference, cell, operand)? else {
            return Ok(None);
        };
        made.push(parameter)?;
    }
    match rest.pop() {
        Some(_) => Ok(None),
        None => Ok(Some(own_slots(made, cells)?)),
    }
}

/// How many cells a local takes, where 64 bits hold their number: one that was lent takes none.
fn slot_weight(local: &Slot) -> Option<u64>
    ensures { MatchOption result (2 ^ 64 ≤ held (local.now ∷ [])) (λ n. n ≡ held (local.now ∷ [])) }
{
    match local {
        Slot::Own(cell) => weight(cell),
        Slot::Lent(_) => Some(0),
    }
}

/// How many cells locals take, where 64 bits hold their number.
pub fn held(locals: &[Slot]) -> Option<u64>
    ensures { MatchOption result (2 ^ 64 ≤ held locals.now) (λ n. n ≡ held locals.now) }
{
    let mut all: u64 = 0;
    for local in locals {
        let Some(more) = slot_weight(local) else {
            return None;
        };
        let Some(sum) = all.checked_add(more) else {
            return None;
        };
        all = sum;
    }
    Some(all)
}
