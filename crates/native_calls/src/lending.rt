//! What is lent to a call of a native function.
ghost use Rattle.std.specs.Prelude.{◌≡◌, ◌∷◌, [], IfOk, map};
ghost use Rattle.mql_meaning.specs.Cells.{told, weight};
ghost use Rattle.mql_meaning.specs.Calls.{has_dynamic, values_of};
ghost use Rattle.native_arguments.specs.Arguments as readers;
ghost use Rattle.native_calls.specs.Lent.{LendsAll, LendsOne, cells_in};
ghost use Rattle.store_frames.specs.Operands.{shown};
ghost use Rattle.store_places.specs.Seen.{seen};

use fx8::{ItemList, OutOfMemory};
use mql_mean::{Value, ValueList};
use mql_meaning::{Cell, Store};
use native_arguments::Argument;
use std::alloc::Global;
use store_cells::{End, Fault, told, told_all, total, weight};
use store_frames::Operand;
use store_places::{Seen, cell_at};

/// An operand as an argument; an element or an object that is not there any more is an error at the line in
/// force.
fn lent_one<'a>(operand: &'a Operand, store: &'a Store) -> Result<Argument<'a>, End>
    ensures { LendsOne (shown operand.now) result store.now }
{
    match operand {
        Operand::Value(value) => Ok(Argument::Given(value)),
        Operand::Place(place) => match cell_at(place, store) {
            Ok(part) => Ok(Argument::Lent(part)),
            Err(end) => Err(end),
        },
    }
}

/// The arguments of a call: its values, and what stands at its places.
pub(crate) fn lent<'a>(
    alloc: Global,
    operands: &'a [Operand],
    store: &'a Store,
) -> Result<ItemList<Argument<'a>>, Fault>
    ensures { LendsAll (map shown operands.now) result store.now }
{
    let mut all = ItemList::new(alloc);
    for operand in operands {
        match lent_one(operand, store) {
            Ok(argument) => all.push(argument)?,
            Err(end) => return Err(Fault::End(end)),
        }
    }
    Ok(all)
}

/// The value that the world is told of what is lent.
#[tactic(auto, using(store_cells::proofs::Rows::told_structure))]
fn told_seen(alloc: Global, part: Seen<'_>) -> Result<Value, OutOfMemory>
    ensures { IfOk result (λ v. v ≡ told (seen part.entry)) }
{
    match part {
        Seen::Cell(cell) => told(alloc, cell),
        Seen::Object(fields) => Ok(Value::Rec(told_all(alloc, fields.as_slice())?)),
    }
}

/// What the world is told of an argument.
fn value_of(alloc: Global, argument: Argument<'_>) -> Result<Value, OutOfMemory>
    ensures { IfOk result (λ v. values_of (readers.shown argument.entry ∷ []) ≡ v ∷ []) }
{
    match argument {
        Argument::Given(value) => value.copy(alloc),
        Argument::Lent(part) => told_seen(alloc, part),
    }
}

/// What the world is told of arguments.
pub(crate) fn values_of(alloc: Global, arguments: &[Argument<'_>]) -> Result<ValueList, OutOfMemory>
    ensures { IfOk result (λ vs. vs ≡ values_of (readers.all_shown arguments.now)) }
{
    let mut values = ItemList::new(alloc);
    for argument in arguments {
        values.push(value_of(alloc, *argument)?)?;
    }
    Ok(values)
}

/// Whether an argument is an array that is lent and whose size changes.
fn is_dynamic(argument: Argument<'_>) -> bool
    ensures { result ≡ has_dynamic (cells_in (readers.shown argument.entry ∷ [])) }
{
    match argument {
        Argument::Lent(Seen::Cell(Cell::Array(dynamic, _, _, _))) => *dynamic,
        Argument::Lent(Seen::Cell(Cell::One(_))) => false,
        Argument::Lent(Seen::Cell(Cell::Structure(_))) => false,
        Argument::Lent(Seen::Object(_)) => false,
        Argument::Given(_) => false,
    }
}

/// Whether an array whose size changes is lent.
pub(crate) fn has_dynamic(arguments: &[Argument<'_>]) -> bool
    ensures { result ≡ has_dynamic (cells_in (readers.all_shown arguments.now)) }
{
    for argument in arguments {
        if is_dynamic(*argument) {
            return true;
        }
    }
    false
}

/// How many cells are taken by what is seen, where 64 bits hold their number.
#[tactic(auto, using(store_cells::proofs::Rows::weight_structure))]
fn weight_seen(part: Seen<'_>) -> Result<u64, OutOfMemory>
    ensures { IfOk result (λ n. n ≡ weight (seen part.entry)) }
{
    let cells = match part {
        Seen::Cell(cell) => weight(cell),
        Seen::Object(fields) => total(fields.as_slice()),
    };
    match cells {
        Some(count) => Ok(count),
        None => Err(OutOfMemory),
    }
}

/// How many cells are taken by each cell that is lent.
pub(crate) fn weights(
    alloc: Global,
    arguments: &[Argument<'_>],
) -> Result<ItemList<u64>, OutOfMemory>
    ensures { IfOk result (λ ns. ns ≡ map weight (cells_in (readers.all_shown arguments.now))) }
{
    let mut counts = ItemList::new(alloc);
    for argument in arguments {
        match argument {
            Argument::Given(_) => {}
            Argument::Lent(part) => counts.push(weight_seen(*part)?)?,
        }
    }
    Ok(counts)
}
