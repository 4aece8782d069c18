//! Cells that get values of their types.
ghost use Rattle.std.specs.Prelude.{◌≡◌, [], true, false, IfOk};
ghost use Rattle.mql_mean.specs.declared.value.Value.{out-Value};
ghost use Rattle.mql_meaning.specs.declared.cell.Cell.TheVariants as cells;
ghost use Rattle.mql_meaning.specs.Cells.{each, elements_in, fields_in, put};
ghost use Rattle.store_cells.specs.Puts.{ahead, put_each, put_unit};

use crate::copies::copied_all;
use crate::kinds::alike;
use fx8::{ItemList, OutOfMemory, Stack};
use mql_mean::{Value, ValueList};
use mql_meaning::Cell;
use std::alloc::Global;

/// The elements of an array's value.
fn elements_in(value: Value) -> Option<ValueList>
    ensures { result ≡ elements_in (out-Value value) }
{
    match value {
        Value::Arr(values) => Some(values),
        _ => None,
    }
}

/// The fields of a structure's value.
fn fields_in(value: Value) -> Option<ValueList>
    ensures { result ≡ fields_in (out-Value value) }
{
    match value {
        Value::Rec(values) => Some(values),
        _ => None,
    }
}

/// A cell without parts that gets a value.
fn put_one(old: &Value, value: Value) -> Option<Cell>
    ensures { result ≡ put (cells.One old.now) value }
{
    if alike(old, &value) {
        Some(Cell::One(value))
    } else {
        None
    }
}

/// What a cell becomes that gets a value: its type and its flags stay. `None` exactly where the value is not of
/// its type. The cell itself stays as it is.
#[cycle(puts)]
#[tactic(auto, using(crate::proofs::Rows::put_any))]
pub fn put(alloc: Global, cell: &Cell, value: Value) -> Result<Option<Cell>, OutOfMemory>
    ensures { IfOk result (λ new. new ≡ put cell.now value) }
{
    match cell {
        Cell::One(old) => Ok(put_one(old, value)),
        Cell::Array(dynamic, series, unit, items) => {
            if *dynamic {
                put_dynamic(alloc, unit.as_slice(), *series, value)
            } else {
                put_fixed(alloc, items.as_slice(), *series, unit.as_slice(), value)
            }
        }
        Cell::Structure(fields) => put_structure(alloc, fields.as_slice(), value),
    }
}

/// An array whose size changes that gets a value: as many elements as the value has.
#[cycle(puts)]
#[tactic(auto, using(crate::proofs::Rows::put_dynamic))]
fn put_dynamic(
    alloc: Global,
    unit: &[Cell],
    series: bool,
    value: Value,
) -> Result<Option<Cell>, OutOfMemory>
    ensures { IfOk result (λ new. new ≡ put (cells.Array true series unit.now []) value) }
{
    let Some(values) = elements_in(value) else {
        return Ok(None);
    };
    let Some(items) = each(alloc, unit, values)? else {
        return Ok(None);
    };
    let unit = copied_all(alloc, unit)?;
    Ok(Some(Cell::Array(true, series, unit, items)))
}

/// An array of a fixed size that gets a value: one for each of its elements.
#[cycle(puts)]
#[tactic(auto, using(crate::proofs::Rows::put_fixed))]
fn put_fixed(
    alloc: Global,
    items: &[Cell],
    series: bool,
    unit: &[Cell],
    value: Value,
) -> Result<Option<Cell>, OutOfMemory>
    ensures { IfOk result (λ new. new ≡ put (cells.Array false series unit.now items.now) value) }
{
    let Some(values) = elements_in(value) else {
        return Ok(None);
    };
    let Some(items) = put_each(alloc, items, values)? else {
        return Ok(None);
    };
    let unit = copied_all(alloc, unit)?;
    Ok(Some(Cell::Array(false, series, unit, items)))
}

/// A structure of these fields that gets a value.
#[cycle(puts)]
#[tactic(auto, using(crate::proofs::Rows::put_structure))]
pub fn put_structure(
    alloc: Global,
    fields: &[Cell],
    value: Value,
) -> Result<Option<Cell>, OutOfMemory>
    ensures { IfOk result (λ new. new ≡ put (cells.Structure fields.now) value) }
{
    let Some(values) = fields_in(value) else {
        return Ok(None);
    };
    let Some(new) = put_each(alloc, fields, values)? else {
        return Ok(None);
    };
    Ok(Some(Cell::Structure(new)))
}

/// The first cell that gets a value.
#[cycle(puts)]
fn put_unit(alloc: Global, unit: &[Cell], value: Value) -> Result<Option<Cell>, OutOfMemory>
    ensures { IfOk result (λ new. new ≡ put_unit unit.now value) }
{
    match unit {
        [] => Ok(None),
        [cell, ..] => put(alloc, cell, value),
    }
}

/// An element as it begins, once for each value, which it gets.
#[cycle(puts)]
fn each(
    alloc: Global,
    unit: &[Cell],
    values: ValueList,
) -> Result<Option<ItemList<Cell>>, OutOfMemory>
    ensures { IfOk result (λ new. new ≡ each (put_unit unit.now) values) }
{
    let mut rest = Stack::of_list(values);
    let mut new = ItemList::new(alloc);
    while let Some(value) = rest.pop() {
        let Some(cell) = put_unit(alloc, unit, value)? else {
            return Ok(None);
        };
        new.push(cell)?;
    }
    Ok(Some(new))
}

/// Cells that get a value each.
#[cycle(puts)]
fn put_each(
    alloc: Global,
    items: &[Cell],
    values: ValueList,
) -> Result<Option<ItemList<Cell>>, OutOfMemory>
    ensures { IfOk result (λ new. new ≡ put_each items.now values) }
{
    let mut rest = Stack::of_list(values);
    let mut new = ItemList::new(alloc);
    for cell in items {
        let Some(value) = rest.pop() else {
            return Ok(None);
        };
        let Some(cell) = put(alloc, cell, value)? else {
            return Ok(None);
        };
        new.push(cell)?;
    }
    Ok(if_done(rest, new))
}

/// These cells, where no value is left.
fn if_done(rest: Stack<Value>, new: ItemList<Cell>) -> Option<ItemList<Cell>>
    ensures { result ≡ ahead new (put_each [] rest) }
{
    match rest.top() {
        None => Some(new),
        Some(_) => None,
    }
}
