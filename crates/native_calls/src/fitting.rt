//! Replies that a call may give.
ghost use Rattle.std.specs.Prelude.{◌≡◌, ◌&&◌, ◌-ℤ◌, IfOk, length, nat_le};
ghost use Rattle.fx8.specs.Doubles.{fits_double};
ghost use Rattle.fx8.specs.Integers.{is_zero, wrapped};
ghost use Rattle.mql_mean.specs.Values.{is_void};
ghost use Rattle.mql_meaning.specs.Cells.{put};
ghost use Rattle.mql_meaning.specs.Calls as calls;
ghost use Rattle.mql_meaning.specs.Operands.{most_units};
ghost use Rattle.native_arguments.specs.Arguments as readers;
ghost use Rattle.native_calls.specs.Lent.{cells_in};
ghost use Rattle.store_places.specs.Seen.{seen};

use fx8::{Fix8, IntKind, ItemList, OutOfMemory, Stack, Text, wrap};
use mql_mean::{Reply, Value, ValueList};
use mql_meaning::Cell;
use native_arguments::Argument;
use natives::{Native, ResultType, SimpleType};
use std::alloc::Global;
use store_cells::{alike, put, put_structure};
use store_places::Seen;

/// The longest string, in units.
const MOST_UNITS: u64 = 65_536;

/// Whether a number is one of a kind.
#[tactic(auto, using(crate::proofs::Soundness::nothing_between, crate::proofs::Soundness::something_between))]
fn is_of_kind(kind: IntKind, number: i128) -> bool
    ensures { result ≡ is_zero (wrapped kind number -ℤ number) }
{
    wrap(kind, number) == number
}

/// Whether 64 bits hold the units of a double; they always do.
#[tactic(auto, unfolding(fx8::specs::Doubles::fits_double))]
fn is_double(number: Fix8) -> bool
    ensures { result ≡ fits_double number }
{
    let units = i128::from(number.units());
    i128::from(i64::MIN) <= units && units <= i128::from(i64::MAX)
}

/// Whether a string is not too long.
fn is_text(text: &Text) -> bool
    ensures { result ≡ nat_le (length text.now) most_units }
{
    text.len() <= MOST_UNITS
}

/// Whether a value is in its type's range, and all its parts are.
#[cycle(sound)]
#[tactic(auto, using(crate::proofs::Soundness::array_sound, crate::proofs::Soundness::structure_sound, crate::proofs::Soundness::array_sound_same, crate::proofs::Soundness::structure_sound_same))]
fn is_sound(value: &Value) -> bool
    ensures { result ≡ calls.is_sound value.now }
{
    match value {
        Value::Num(kind, number) => is_of_kind(*kind, *number),
        Value::Dbl(number) => is_double(*number),
        Value::Str(text) => is_text(text),
        Value::Ptr(_) => true,
        Value::Arr(items) => all_sound(items.as_slice()),
        Value::Rec(fields) => all_sound(fields.as_slice()),
    }
}

/// Whether values are in their types' ranges.
#[cycle(sound)]
fn all_sound(values: &[Value]) -> bool
    ensures { result ≡ calls.all_sound values.now }
{
    for value in values {
        if !is_sound(value) {
            return false;
        }
    }
    true
}

/// A value of a type.
fn sample(alloc: Global, of: SimpleType) -> Value
    ensures { result ≡ calls.sample of }
{
    match of {
        SimpleType::Integer(kind) => Value::Num(kind, 0),
        SimpleType::Double => Value::Dbl(Fix8::of_units(0)),
        SimpleType::String => Value::Str(ItemList::new(alloc)),
    }
}

/// Whether a value stands for that of a void function.
fn is_void(value: &Value) -> bool
    ensures { result ≡ is_void value.now }
{
    match value {
        Value::Num(IntKind::Int, number) => *number == 0,
        _ => false,
    }
}

/// Whether a value is of the type of a result.
fn is_of(alloc: Global, result_type: ResultType, value: &Value) -> bool
    ensures { result ≡ calls.is_of result_type value.now }
{
    match result_type {
        ResultType::Simple(of) => alike(&sample(alloc, of), value),
        ResultType::Void => is_void(value),
        _ => false,
    }
}

/// The type of the result that a call gives.
fn result_of(native: Option<Native>) -> ResultType
    ensures { result ≡ calls.result_of native }
{
    match native {
        Some(native) => native.result(),
        None => ResultType::Void,
    }
}

/// What is seen, which gets a value of its type.
fn put_seen(alloc: Global, part: Seen<'_>, value: Value) -> Result<Option<Cell>, OutOfMemory>
    ensures { IfOk result (λ new. new ≡ put (seen part.entry) value) }
{
    match part {
        Seen::Cell(cell) => put(alloc, cell, value),
        Seen::Object(fields) => put_structure(alloc, fields.as_slice(), value),
    }
}

/// What is lent gets a value each; `None` exactly where there are not as many, or one is not of its type.
fn put_each(
    alloc: Global,
    arguments: &[Argument<'_>],
    values: ValueList,
) -> Result<Option<ItemList<Cell>>, OutOfMemory>
    ensures { IfOk result (λ new. new ≡ calls.put_each (cells_in (readers.all_shown arguments.now)) values) }
{
    let mut rest = Stack::of_list(values);
    let mut new = ItemList::new(alloc);
    for argument in arguments {
        if let Argument::Lent(part) = argument {
            let Some(value) = rest.pop() else {
                return Ok(None);
            };
            let Some(cell) = put_seen(alloc, *part, value)? else {
                return Ok(None);
            };
            new.push(cell)?;
        }
    }
    match rest.pop() {
        Some(_) => Ok(None),
        None => Ok(Some(new)),
    }
}

/// Values that are the same.
fn copies(alloc: Global, values: &[Value]) -> Result<ValueList, OutOfMemory>
    ensures { IfOk result (λ vs. vs ≡ values.now) }
{
    let mut copies = ItemList::new(alloc);
    for value in values {
        copies.push(value.copy(alloc)?)?;
    }
    Ok(copies)
}

/// Whether the value and the written values of a reply may be those of a call.
fn may_be(alloc: Global, native: Option<Native>, reply: &Reply) -> bool
    ensures { result ≡ (calls.is_of (calls.result_of native) reply.now.value
        && calls.is_sound reply.now.value && calls.all_sound reply.now.outs) }
{
    is_of(alloc, result_of(native), &reply.value)
        && is_sound(&reply.value)
        && all_sound(reply.outs.as_slice())
}

/// The value of a reply, and the cells that a reply makes of what is lent, where the call may give it.
pub(crate) fn fits(
    alloc: Global,
    native: Option<Native>,
    reply: &Reply,
    arguments: &[Argument<'_>],
) -> Result<Option<ItemList<Cell>>, OutOfMemory>
    ensures { IfOk result (λ new. new
        ≡ calls.fits native reply.now (cells_in (readers.all_shown arguments.now))) }
{
    if !may_be(alloc, native, reply) {
        return Ok(None);
    }
    put_each(alloc, arguments, copies(alloc, reply.outs.as_slice())?)
}
