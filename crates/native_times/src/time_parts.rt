//! Times and their fields, once arguments are read (MQL5 Reference, TimeToStruct, StructToTime).
ghost use Rattle.std.specs.Prelude.{◌≡◌, ◌<◌, ◌*◌, IfOk, map, pos, take};
ghost use Rattle.fx8.specs.declared.int_kind.IntKind.TheVariants as kind;
ghost use Rattle.mql_meaning.specs.Changes.{then_some};
ghost use Rattle.mql_meaning.specs.Dates as dates;
ghost use Rattle.mql_meaning.specs.Natives as meaning;
ghost use Rattle.native_arguments.specs.Done.{Computes};
ghost use Rattle.native_times.specs.Times.{becomes_fields, natural_of};
ghost use Rattle.store_places.specs.Seen.{seen};

use calendar::second_of;
use fx8::{IntKind, ItemList, OutOfMemory};
use mql_mean::{Value, ValueList};
use mql_meaning::{Cell, Store};
use native_arguments::{NativeDone, refuses};
use native_conversions::date;
use native_functions::{given, given_with, second_in, truth_value, whole};
use std::alloc::Global;
use store_cells::{End, Fault, copied, copied_all, put};
use store_places::Seen;

/// Counts as values.
fn wholes(alloc: Global, counts: &[u64]) -> Result<ValueList, OutOfMemory>
    ensures { IfOk result (λ vs. vs ≡ map meaning.whole counts.now) }
{
    let mut values = ItemList::new(alloc);
    for count in counts {
        values.push(whole(*count))?;
    }
    Ok(values)
}

/// The day of the week of a second; Sunday is 0.
fn day_of_week(second: u64) -> u64
    requires { second < 376200 * 86400 }
    ensures { result ≡ dates.day_of_week second }
{
    (second / 86400 + 4) % 7
}

/// The fields of a second of the years 1970 to 2999.
fn time_fields(alloc: Global, second: u64) -> Result<ValueList, OutOfMemory>
    requires { second < 376200 * 86400 }
    ensures { IfOk result (λ vs. vs ≡ map meaning.whole (meaning.time_fields second)) }
{
    let day = date((second / 86400) as u32);
    wholes(
        alloc,
        &[
            day.year as u64,
            day.month as u64,
            day.day as u64,
            second / 3600 % 24,
            second / 60 % 60,
            second % 60,
            day_of_week(second),
            day.day_of_year as u64,
        ],
    )
}

/// A cell that is the same as what is lent; an object is the structure of its fields.
fn cell_of(alloc: Global, part: Seen<'_>) -> Result<Cell, OutOfMemory>
    ensures { IfOk result (λ c. c ≡ seen part.entry) }
{
    match part {
        Seen::Cell(cell) => copied(alloc, cell),
        Seen::Object(fields) => Ok(Cell::Structure(copied_all(alloc, fields.as_slice())?)),
    }
}

/// A structure gets the fields of a second.
#[tactic(auto, using(native_functions::proofs::Ranges::there, native_functions::proofs::Ranges::not_there))]
fn with_fields(
    alloc: Global,
    second: u64,
    target: Seen<'_>,
    store: &Store,
) -> Result<NativeDone, Fault>
    requires { second < 376200 * 86400 }
    ensures { Computes (becomes_fields second (seen target.entry)) result store.now }
{
    let fields = time_fields(alloc, second)?;
    let cell = cell_of(alloc, target)?;
    match put(alloc, &cell, Value::Rec(fields))? {
        Some(new) => given_with(alloc, new, truth_value(true), store),
        None => Err(Fault::End(End::Stuck)),
    }
}

/// A structure gets the fields of a time (TimeToStruct).
#[tactic(auto, using(native_functions::proofs::Ranges::first_of_two, native_functions::proofs::Ranges::second_of_two))]
pub(crate) fn to_structure(
    alloc: Global,
    time: i128,
    target: Seen<'_>,
    store: &Store,
) -> Result<NativeDone, Fault>
    ensures { Computes (meaning.to_structure time (seen target.entry)) result store.now }
{
    let Some(second) = second_in(time) else {
        return Ok(refuses(alloc, truth_value(false)));
    };
    with_fields(alloc, second, target, store)
}

/// The second of a date and a time of day; `None` exactly where the years 1970 to 2999 do not have it.
#[tactic(auto, using(crate::proofs::Fields::no_hour, crate::proofs::Fields::no_minute, crate::proofs::Fields::no_second, crate::proofs::Fields::moment_is))]
fn moment(year: u64, month: u64, day: u64, hour: u64, minute: u64, second: u64) -> Option<u64>
    ensures { result ≡ dates.moment year month day hour minute second }
{
    if hour >= 24 {
        return None;
    }
    if minute >= 60 {
        return None;
    }
    if second >= 60 {
        return None;
    }
    second_of(year, month, day, hour * 3600 + minute * 60 + second)
}

/// The second that the first six numbers name.
#[tactic(auto, using(crate::proofs::Fields::named_are, crate::proofs::Fields::too_few))]
fn named_moment(numbers: &[u64]) -> Option<u64>
    ensures { result ≡ meaning.named_moment numbers.now }
{
    if numbers.len() < 6 {
        return None;
    }
    moment(
        numbers[0], numbers[1], numbers[2], numbers[3], numbers[4], numbers[5],
    )
}

/// The number of a value that is not below 0; `OutOfMemory` where 64 bits do not hold it.
fn natural_of(value: &Value) -> Result<Option<u64>, OutOfMemory>
    ensures { IfOk result (λ n. n ≡ natural_of value.now) }
{
    let Value::Num(_, number) = value else {
        return Ok(None);
    };
    if *number < 0 {
        return Ok(None);
    }
    if *number > 0xffff_ffff_ffff_ffff {
        return Err(OutOfMemory);
    }
    Ok(Some(*number as u64))
}

/// The numbers of values, none of them below 0; `None` exactly where one is.
#[tactic(auto, using(crate::proofs::Fields::before_none, crate::proofs::Fields::before_one, crate::proofs::Fields::before_end))]
fn naturals(alloc: Global, values: &[Value]) -> Result<Option<ItemList<u64>>, OutOfMemory>
    ensures { IfOk result (λ ns. ns ≡ meaning.naturals values.now) }
{
    let mut numbers = ItemList::new(alloc);
    for value in values {
        let Some(number) = natural_of(value)? else {
            return Ok(None);
        };
        numbers.push(number)?;
    }
    Ok(Some(numbers))
}

/// The first six values, or all of them.
fn first_six(values: &[Value]) -> &[Value]
    ensures { result.now ≡ take 6 values.now }
{
    if values.len() <= 6 {
        return values;
    }
    &values[..6]
}

/// The second that the first six fields of a structure name.
fn named_by(alloc: Global, fields: &[Value]) -> Result<Option<u64>, OutOfMemory>
    ensures { IfOk result (λ t. t ≡ then_some (meaning.naturals (take 6 fields.now)) meaning.named_moment) }
{
    let Some(numbers) = naturals(alloc, first_six(fields))? else {
        return Ok(None);
    };
    Ok(named_moment(numbers.as_slice()))
}

/// A time as a value.
fn time_value(second: u64) -> Value
    ensures { result ≡ Value.Num kind.Datetime (pos second) }
{
    Value::Num(IntKind::Datetime, second as i128)
}

/// The time that the fields of a structure name.
#[tactic(auto, using(native_functions::proofs::Ranges::refused, native_functions::proofs::Ranges::within))]
fn time_of(alloc: Global, fields: &[Value], store: &Store) -> Result<NativeDone, Fault>
    ensures { Computes (meaning.in_range (Value.Num kind.Datetime (pos 0))
        (then_some (meaning.naturals (take 6 fields.now)) meaning.named_moment)
        (λ t. meaning.gives (Value.Num kind.Datetime (pos t)))) result store.now }
{
    let Some(second) = named_by(alloc, fields)? else {
        return Ok(refuses(alloc, time_value(0)));
    };
    given(alloc, time_value(second), store)
}

/// The time that a structure names (StructToTime).
pub(crate) fn from_structure(
    alloc: Global,
    value: &Value,
    store: &Store,
) -> Result<NativeDone, Fault>
    ensures { Computes (meaning.from_structure value.now) result store.now }
{
    match value {
        Value::Rec(fields) => time_of(alloc, fields.as_slice(), store),
        Value::Num(_, _) => Err(Fault::End(End::Stuck)),
        Value::Dbl(_) => Err(Fault::End(End::Stuck)),
        Value::Str(_) => Err(Fault::End(End::Stuck)),
        Value::Ptr(_) => Err(Fault::End(End::Stuck)),
        Value::Arr(_) => Err(Fault::End(End::Stuck)),
    }
}
