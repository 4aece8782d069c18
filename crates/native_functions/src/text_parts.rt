//! Native functions that give texts, once their arguments are read (MQL5 Reference, Conversion Functions).
ghost use Rattle.std.specs.Prelude.{◌≡◌, ◌∷◌, [], ◌<◌, ◌*◌, ℕ, IfOk, false, unsigned_abs};
ghost use Rattle.fx8.specs.declared.int_kind.IntKind.TheVariants as kind;
ghost use Rattle.fx8.specs.Operators.{bits};
ghost use Rattle.mql_meaning.specs.Changes.{either};
ghost use Rattle.mql_meaning.specs.Dates as dates;
ghost use Rattle.mql_meaning.specs.StringFunctions as strings;
ghost use Rattle.mql_meaning.specs.Texts as texts;
ghost use Rattle.mql_meaning.specs.Natives as meaning;
ghost use Rattle.native_arguments.specs.Done.{Computes};

use crate::values::{empty, given, given_double, given_text, second_in, unit};
use fx8::{Fix8, IntKind, ItemList, OutOfMemory, Text};
use mql_mean::Value;
use mql_meaning::Store;
use native_arguments::{NativeDone, refuses};
use native_conversions::{double_of, integer_of, moment_text, number_text};
use native_math::decimals_of;
use native_strings::{fixed_text, padded, part_of, width_of};
use std::alloc::Global;
use store_cells::Fault;

/// The whole number that a string begins with (StringToInteger).
pub(crate) fn integer(alloc: Global, text: &[u16], store: &Store) -> Result<NativeDone, Fault>
    ensures { Computes (meaning.gives (Value.Num kind.Long (texts.integer_of text.now))) result store.now }
{
    given(
        alloc,
        Value::Num(IntKind::Long, integer_of(text) as i128),
        store,
    )
}

/// The double that a string begins with (StringToDouble).
pub(crate) fn double(alloc: Global, text: &[u16], store: &Store) -> Result<NativeDone, Fault>
    ensures { Computes (meaning.gives_double (texts.double_of text.now)) result store.now }
{
    let number = double_of(alloc, text)?;
    given_double(alloc, number, store)
}

/// The text of a whole number in a width (IntegerToString).
pub(crate) fn integer_text(
    alloc: Global,
    number: i128,
    width: i128,
    fill: i128,
    store: &Store,
) -> Result<NativeDone, Fault>
    ensures { Computes (meaning.gives_text (strings.padded false (strings.width_of width) (unsigned_abs fill)
        (texts.whole_text number))) result store.now }
{
    let digits = number_text(alloc, IntKind::Long, number)?;
    let units = padded(
        alloc,
        false,
        width_of(width),
        unit(fill)?,
        digits.as_slice(),
    )?;
    given_text(alloc, units, store)
}

/// The text of a double with so many decimals (DoubleToString).
pub(crate) fn double_text(
    alloc: Global,
    number: Fix8,
    digits: i128,
    store: &Store,
) -> Result<NativeDone, Fault>
    ensures { Computes (meaning.gives_text (strings.fixed_text (strings.decimals_of digits) number))
        result store.now }
{
    let units = fixed_text(alloc, decimals_of(digits), number)?;
    given_text(alloc, units, store)
}

/// The text of one unit (CharToString, ShortToString).
pub(crate) fn unit_text(alloc: Global, number: i128, store: &Store) -> Result<NativeDone, Fault>
    ensures { Computes (meaning.gives_text (unsigned_abs number ∷ [])) result store.now }
{
    let mut units = ItemList::new(alloc);
    units.push(unit(number)?)?;
    given_text(alloc, units, store)
}

/// The bits of a number of the kind `int`.
fn flag_bits(number: i128) -> u64
    ensures { result ≡ bits kind.Int number }
{
    number.rem_euclid(0x1_0000_0000) as u64
}

/// Whether a flag is among others.
fn has_flag(flags: u64, flag: u64) -> bool
    ensures { result ≡ strings.has_flag flags flag }
{
    flags & flag != 0
}

/// The time of day of a moment's text, as flags ask for it.
#[tactic(auto, using(crate::proofs::Moments::minutes_of, crate::proofs::Moments::seconds_of))]
fn clock_part(flags: u64, moment: &[u16]) -> &[u16]
    ensures { (second : ℕ) → moment.now ≡ dates.moment_text second →
        result.now ≡ strings.clock_text second flags }
{
    if has_flag(flags, 4) {
        return part_of(moment, 11, 8);
    }
    if has_flag(flags, 2) {
        return part_of(moment, 11, 5);
    }
    &[]
}

/// The day of a moment's text, as flags ask for it.
#[tactic(auto, using(crate::proofs::Moments::day_of))]
fn day_part(flags: u64, moment: &[u16]) -> &[u16]
    ensures { (second : ℕ) → moment.now ≡ dates.moment_text second →
        result.now ≡ either (strings.has_flag flags 1) (dates.day_text second) [] }
{
    if has_flag(flags, 1) {
        return part_of(moment, 0, 10);
    }
    &[]
}

/// Two texts with a blank between them, where both have units.
fn apart(alloc: Global, first: &[u16], second: &[u16]) -> Result<Text, OutOfMemory>
    ensures { IfOk result (λ t. t ≡ strings.apart first.now second.now) }
{
    if first.is_empty() {
        return ItemList::from_slice(alloc, second);
    }
    let mut units = ItemList::from_slice(alloc, first)?;
    if second.is_empty() {
        return Ok(units);
    }
    units.push(32)?;
    units.extend_from_slice(second)?;
    Ok(units)
}

/// The parts of a time that flags ask for.
fn time_parts(alloc: Global, second: u64, flags: u64) -> Result<Text, OutOfMemory>
    requires { second < 376200 * 86400 }
    ensures { IfOk result (λ t. t ≡ strings.time_parts second flags) }
{
    let moment = moment_text(alloc, second)?;
    let day = day_part(flags, moment.as_slice());
    let clock = clock_part(flags, moment.as_slice());
    apart(alloc, day, clock)
}

/// The text of the parts of a time that flags ask for.
fn dated_text(alloc: Global, second: u64, flags: u64, store: &Store) -> Result<NativeDone, Fault>
    requires { second < 376200 * 86400 }
    ensures { Computes (meaning.gives_text (strings.time_parts second flags)) result store.now }
{
    let units = time_parts(alloc, second, flags)?;
    given_text(alloc, units, store)
}

/// The text of a time, as flags ask for it (TimeToString).
pub(crate) fn time_text(
    alloc: Global,
    time: i128,
    flags: i128,
    store: &Store,
) -> Result<NativeDone, Fault>
    ensures { Computes (meaning.tells_time time flags) result store.now }
{
    let Some(second) = second_in(time) else {
        return Ok(refuses(alloc, empty(alloc)));
    };
    dated_text(alloc, second, flag_bits(flags), store)
}
