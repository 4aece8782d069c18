//! How variables begin (MQL5 Reference, Language Basics, Variables, Initialization of Variables).
ghost use Rattle.std.specs.Prelude.{◌≡◌, [], ◌∷◌, IfOk, map, replicate, slice_get, length};
ghost use Rattle.mql_meaning.specs.declared.types.VarType.{VarType};
ghost use Rattle.mql_meaning.specs.declared.types.Base.TheVariants as base;
ghost use Rattle.mql_meaning.specs.Cells.{array, fields_of, zero_base, zero_of};

use crate::copies::copied;
use fx8::{Fix8, ItemList, OutOfMemory};
use mql_mean::Value;
use mql_meaning::{Base, Cell, Class, VarType};
use std::alloc::Global;

/// So many cells that are the same.
fn replicated(alloc: Global, cell: &Cell, count: u32) -> Result<ItemList<Cell>, OutOfMemory>
    ensures { IfOk result (λ list. list ≡ replicate count cell.now) }
{
    let mut list = ItemList::new(alloc);
    for _i in 0..count {
        list.push(copied(alloc, cell)?)?;
    }
    Ok(list)
}

/// An array of so many elements, 0 for one whose size changes.
#[tactic(auto, using(crate::proofs::Rows::sized_some))]
fn sized(alloc: Global, element: Cell, count: u32) -> Result<Cell, OutOfMemory>
    ensures { IfOk result (λ a. a ≡ array element (count ∷ [])) }
{
    let items = replicated(alloc, &element, count)?;
    let mut unit = ItemList::new(alloc);
    unit.push(element)?;
    if count == 0 {
        return Ok(Cell::Array(true, false, unit, items));
    }
    Ok(Cell::Array(false, false, unit, items))
}

/// An array of these dimensions from the first, 0 for one whose size changes.
#[tactic(auto, using(crate::proofs::Rows::array_of))]
pub fn array(alloc: Global, cell: Cell, dimensions: &[u32]) -> Result<Cell, OutOfMemory>
    ensures { IfOk result (λ a. a ≡ array cell dimensions.now) }
{
    match dimensions {
        [] => Ok(cell),
        [count, rest @ ..] => {
            let element = array(alloc, cell, rest)?;
            sized(alloc, element, *count)
        }
    }
}

/// The types of a class's fields, none where there is no such class.
fn fields_of(classes: &[Class], class: u32) -> &[VarType]
    ensures { result.now ≡ fields_of (slice_get classes.now class) }
{
    match classes.get(class as usize) {
        Some(class) => class.fields.as_slice(),
        None => &[],
    }
}

/// How a variable begins that is no array. Structures nest at most so deep.
#[cycle(zeros)]
#[tactic(auto, using(crate::proofs::Rows::zero_structure, crate::proofs::Rows::zero_deepest))]
pub fn zero_base(
    alloc: Global,
    deep: u64,
    classes: &[Class],
    base: Base,
) -> Result<Cell, OutOfMemory>
    ensures { IfOk result (λ c. c ≡ zero_base deep classes.now base) }
{
    match base {
        Base::Number(kind) => Ok(Cell::One(Value::Num(kind, 0))),
        Base::Double => Ok(Cell::One(Value::Dbl(Fix8::of_units(0)))),
        Base::String => Ok(Cell::One(Value::Str(ItemList::new(alloc)))),
        Base::Pointer(_) => Ok(Cell::One(Value::Ptr(0))),
        Base::Object(_) => Ok(Cell::One(Value::Ptr(0))),
        Base::Structure(class) => {
            if deep == 0 {
                return Ok(Cell::Structure(ItemList::new(alloc)));
            }
            let fields = zero_fields(alloc, deep - 1, classes, fields_of(classes, class))?;
            Ok(Cell::Structure(fields))
        }
    }
}

/// How a variable begins in which structures nest at most so deep.
#[cycle(zeros)]
fn zero_at(alloc: Global, deep: u64, classes: &[Class], t: &VarType) -> Result<Cell, OutOfMemory>
    ensures { IfOk result (λ c. c ≡ array (zero_base deep classes.now t.now.base) t.now.dimensions) }
{
    let cell = zero_base(alloc, deep, classes, t.base)?;
    array(alloc, cell, t.dimensions.as_slice())
}

/// How fields begin in which structures nest at most so deep.
#[cycle(zeros)]
fn zero_fields(
    alloc: Global,
    deep: u64,
    classes: &[Class],
    types: &[VarType],
) -> Result<ItemList<Cell>, OutOfMemory>
    ensures { IfOk result (λ cs. cs ≡
        map (λ (t : VarType). array (zero_base deep classes.now t.base) t.dimensions) types.now) }
{
    let mut cells = ItemList::new(alloc);
    for t in types {
        cells.push(zero_at(alloc, deep, classes, t)?)?;
    }
    Ok(cells)
}

/// How a variable of a type begins.
pub fn zero_of(alloc: Global, classes: &[Class], t: &VarType) -> Result<Cell, OutOfMemory>
    ensures { IfOk result (λ c. c ≡ zero_of classes.now t.now) }
{
    zero_at(alloc, classes.len() as u64, classes, t)
}

/// How variables of these types begin.
pub fn zeros(
    alloc: Global,
    classes: &[Class],
    types: &[VarType],
) -> Result<ItemList<Cell>, OutOfMemory>
    ensures { IfOk result (λ cs. cs ≡ map (zero_of classes.now) types.now) }
{
    let mut cells = ItemList::new(alloc);
    for t in types {
        cells.push(zero_of(alloc, classes, t)?)?;
    }
    Ok(cells)
}
