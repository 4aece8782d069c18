//! Values of native functions.
ghost use Rattle.std.specs.Prelude.{◌≡◌, ◌<◌, ◌*◌, [], ◌∷◌, IfOk, MatchOption, false, true, unsigned_abs};
ghost use Rattle.mql_meaning.specs.Natives as meaning;
ghost use Rattle.mql_meaning.specs.Dates.{has_date};
ghost use Rattle.native_arguments.specs.Done.{Computes};

use fx8::{Fix8, IntKind, ItemList, OutOfMemory, Text};
use mql_mean::Value;
use mql_meaning::{Cell, Store};
use native_arguments::{NativeDone, gives, gives_with};
use std::alloc::Global;
use store_cells::Fault;
use store_values::text;

/// A number of the kind `int`.
pub(crate) fn int(number: i128) -> Value
    ensures { result ≡ meaning.int number }
{
    Value::Num(IntKind::Int, number)
}

/// A count.
pub fn whole(count: u64) -> Value
    ensures { result ≡ meaning.whole count }
{
    Value::Num(IntKind::Int, count as i128)
}

/// The number -1.
pub(crate) fn minus_one() -> Value
    ensures { result ≡ meaning.minus_one }
{
    Value::Num(IntKind::Int, -1)
}

/// A truth.
pub fn truth_value(truth: bool) -> Value
    ensures { result ≡ meaning.truth_value truth }
{
    Value::Num(IntKind::Bool, if truth { 1 } else { 0 })
}

/// The empty string.
pub(crate) fn empty(alloc: Global) -> Value
    ensures { result ≡ meaning.empty }
{
    Value::Str(ItemList::new(alloc))
}

/// The value of a void function.
pub(crate) fn void_value() -> Value
    ensures { result ≡ meaning.void_value }
{
    Value::Num(IntKind::Int, 0)
}

/// The unit of a number; `OutOfMemory` where no string holds it, which no number of a kind that units have
/// comes to.
pub(crate) fn unit(number: i128) -> Result<u16, OutOfMemory>
    ensures { IfOk result (λ u. u ≡ unsigned_abs number) }
{
    let size = number.unsigned_abs();
    if size > 65_535 {
        return Err(OutOfMemory);
    }
    Ok(size as u16)
}

/// A native function gives a value.
pub fn given(alloc: Global, value: Value, store: &Store) -> Result<NativeDone, Fault>
    ensures { Computes (meaning.gives value) result store.now }
{
    Ok(gives(alloc, value))
}

/// A native function gives a value, and its first reference argument becomes a cell.
pub fn given_with(
    alloc: Global,
    cell: Cell,
    value: Value,
    store: &Store,
) -> Result<NativeDone, Fault>
    ensures { Computes (meaning.gives_with (cell ∷ []) value) result store.now }
{
    Ok(gives_with(alloc, cell, value)?)
}

/// A native function gives a double.
pub(crate) fn given_double(alloc: Global, number: Fix8, store: &Store) -> Result<NativeDone, Fault>
    ensures { Computes (meaning.gives_double number) result store.now }
{
    Ok(gives(alloc, Value::Dbl(number)))
}

/// A native function gives a string; one that is too long is an error at the line in force.
#[tactic(auto, using(crate::proofs::Ranges::stops, crate::proofs::Ranges::goes))]
pub(crate) fn given_text(alloc: Global, units: Text, store: &Store) -> Result<NativeDone, Fault>
    ensures { Computes (meaning.gives_text units) result store.now }
{
    let value = text(units, store)?;
    Ok(gives(alloc, value))
}

/// A string that is a reference argument becomes another one; one that is too long is an error at the line in
/// force.
#[tactic(auto, using(crate::proofs::Ranges::stops, crate::proofs::Ranges::goes))]
pub(crate) fn becomes_text(
    alloc: Global,
    units: Text,
    value: Value,
    store: &Store,
) -> Result<NativeDone, Fault>
    ensures { Computes (meaning.becomes_text units value) result store.now }
{
    let new = text(units, store)?;
    Ok(gives_with(alloc, Cell::One(new), value)?)
}

/// The second of a time that has a date; `None` exactly for one that has none.
#[tactic(auto, using(crate::proofs::Ranges::undated, crate::proofs::Ranges::too_late, crate::proofs::Ranges::dated))]
pub fn second_in(time: i128) -> Option<u64>
    ensures { MatchOption result (has_date time ≡ false)
        (λ t. (has_date time ≡ true) × (unsigned_abs time ≡ t) × (t < 376200 * 86400)) }
{
    if time < 0 {
        return None;
    }
    let second = time.unsigned_abs();
    if second >= 376_200 * 86_400 {
        return None;
    }
    Some(second as u64)
}
