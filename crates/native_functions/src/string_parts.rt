//! Native functions of strings, once their arguments are read (MQL5 Reference, String Functions).
ghost use Rattle.std.specs.Prelude.{◌≡◌, ◌-◌, length, map, pos, true, false};
ghost use Rattle.fx8.specs.declared.int_kind.IntKind.TheVariants as kind;
ghost use Rattle.mql_meaning.specs.StringFunctions as strings;
ghost use Rattle.mql_meaning.specs.Natives as meaning;
ghost use Rattle.native_arguments.specs.Done.{Computes};

use crate::values::{
    becomes_text, empty, given, given_text, int, minus_one, truth_value, unit, whole,
};
use fx8::{IntKind, ItemList};
use mql_mean::Value;
use mql_meaning::Store;
use native_arguments::{NativeDone, refuses};
use native_strings::{
    count_in, find, lowered, order, order_without_case, part_of, place_in, raised, replace_in,
    trimmed_left, trimmed_right, unit_at, with_unit,
};
use std::alloc::Global;
use store_cells::Fault;

/// How many units a string has (StringLen).
pub(crate) fn length(alloc: Global, text: &[u16], store: &Store) -> Result<NativeDone, Fault>
    ensures { Computes (meaning.gives (meaning.whole (length text.now))) result store.now }
{
    given(alloc, whole(text.len() as u64), store)
}

/// The part of a string from a place on, of so many units (StringSubstr).
#[tactic(auto, using(crate::proofs::Ranges::refused, crate::proofs::Ranges::within))]
pub(crate) fn cut(
    alloc: Global,
    text: &[u16],
    start: i128,
    count: i128,
    store: &Store,
) -> Result<NativeDone, Fault>
    ensures { Computes (meaning.cuts text.now start count) result store.now }
{
    let Some(place) = place_in(start, text.len() as u64) else {
        return Ok(refuses(alloc, empty(alloc)));
    };
    let Some(count) = count_in(count, text.len() as u64 - place) else {
        return Ok(refuses(alloc, empty(alloc)));
    };
    let part = ItemList::from_slice(alloc, part_of(text, place, count))?;
    given_text(alloc, part, store)
}

/// Where a part stands in a string, behind so many units.
#[tactic(auto, using(crate::proofs::Ranges::found, crate::proofs::Ranges::not_found))]
fn found_from(
    alloc: Global,
    text: &[u16],
    part: &[u16],
    place: u64,
    store: &Store,
) -> Result<NativeDone, Fault>
    ensures { Computes (meaning.finds text.now part.now place) result store.now }
{
    match find(part, text, place) {
        Some(at) => given(alloc, whole(at), store),
        None => given(alloc, minus_one(), store),
    }
}

/// Where a part stands in a string, from a place on (StringFind).
#[tactic(auto, using(crate::proofs::Ranges::refused, crate::proofs::Ranges::within))]
pub(crate) fn found(
    alloc: Global,
    text: &[u16],
    part: &[u16],
    start: i128,
    store: &Store,
) -> Result<NativeDone, Fault>
    ensures { Computes (meaning.in_range meaning.minus_one (strings.place_in start (length text.now))
        (meaning.finds text.now part.now)) result store.now }
{
    let Some(place) = place_in(start, text.len() as u64) else {
        return Ok(refuses(alloc, minus_one()));
    };
    found_from(alloc, text, part, place, store)
}

/// A part of a string that is replaced wherever it stands (StringReplace).
pub(crate) fn replaced(
    alloc: Global,
    text: &[u16],
    part: &[u16],
    by: &[u16],
    store: &Store,
) -> Result<NativeDone, Fault>
    ensures { Computes (meaning.replaces text.now part.now by.now) result store.now }
{
    let counted = replace_in(alloc, text, part, by)?;
    becomes_text(alloc, counted.text, whole(counted.count), store)
}

/// A string that loses what a trim takes away (StringTrimLeft, StringTrimRight).
fn trimmed_to(alloc: Global, text: &[u16], rest: &[u16], store: &Store) -> Result<NativeDone, Fault>
    ensures { Computes (meaning.becomes_text rest.now (meaning.whole (length text.now - length rest.now)))
        result store.now }
{
    let lost = (text.len() as u64).saturating_sub(rest.len() as u64);
    let units = ItemList::from_slice(alloc, rest)?;
    becomes_text(alloc, units, whole(lost), store)
}

/// A string without the blanks at its left end (StringTrimLeft).
pub(crate) fn left_trimmed(alloc: Global, text: &[u16], store: &Store) -> Result<NativeDone, Fault>
    ensures { Computes (meaning.trims strings.trimmed_left text.now) result store.now }
{
    trimmed_to(alloc, text, trimmed_left(text), store)
}

/// A string without the blanks at its right end (StringTrimRight).
pub(crate) fn right_trimmed(alloc: Global, text: &[u16], store: &Store) -> Result<NativeDone, Fault>
    ensures { Computes (meaning.trims strings.trimmed_right text.now) result store.now }
{
    trimmed_to(alloc, text, trimmed_right(text), store)
}

/// A string with small letters for its ASCII capitals (StringToLower).
pub(crate) fn to_lower(alloc: Global, text: &[u16], store: &Store) -> Result<NativeDone, Fault>
    ensures { Computes (meaning.becomes_text (map strings.small text.now) (meaning.truth_value true))
        result store.now }
{
    let units = lowered(alloc, text)?;
    becomes_text(alloc, units, truth_value(true), store)
}

/// A string with capitals for its small ASCII letters (StringToUpper).
pub(crate) fn to_upper(alloc: Global, text: &[u16], store: &Store) -> Result<NativeDone, Fault>
    ensures { Computes (meaning.becomes_text (map strings.capital text.now) (meaning.truth_value true))
        result store.now }
{
    let units = raised(alloc, text)?;
    becomes_text(alloc, units, truth_value(true), store)
}

/// A unit of the kind `ushort`.
fn unit_value(unit: u16) -> Value
    ensures { result ≡ Value.Num kind.Ushort (pos unit) }
{
    Value::Num(IntKind::Ushort, unit as i128)
}

/// The unit at a place of a string (StringGetCharacter).
#[tactic(auto, using(crate::proofs::Ranges::refused, crate::proofs::Ranges::within))]
pub(crate) fn character(
    alloc: Global,
    text: &[u16],
    place: i128,
    store: &Store,
) -> Result<NativeDone, Fault>
    ensures { Computes (meaning.in_range (Value.Num kind.Ushort (pos 0)) (meaning.unit_at text.now place)
        (λ u. meaning.gives (Value.Num kind.Ushort (pos u)))) result store.now }
{
    let Some(unit) = unit_at(text, place) else {
        return Ok(refuses(alloc, unit_value(0)));
    };
    given(alloc, unit_value(unit), store)
}

/// A string with another unit at a place, which may be its end (StringSetCharacter).
#[tactic(auto, using(crate::proofs::Ranges::refused, crate::proofs::Ranges::within))]
pub(crate) fn with_character(
    alloc: Global,
    text: &[u16],
    place: i128,
    number: i128,
    store: &Store,
) -> Result<NativeDone, Fault>
    ensures { Computes (meaning.sets_unit text.now place number) result store.now }
{
    let Some(place) = place_in(place, text.len() as u64) else {
        return Ok(refuses(alloc, truth_value(false)));
    };
    let units = with_unit(alloc, text, place, unit(number)?)?;
    becomes_text(alloc, units, truth_value(true), store)
}

/// How two strings compare, with regard to case or without it (StringCompare).
pub(crate) fn compared(
    alloc: Global,
    first: &[u16],
    second: &[u16],
    case: i128,
    store: &Store,
) -> Result<NativeDone, Fault>
    ensures { Computes (meaning.compares_strings first.now second.now case) result store.now }
{
    if case == 0 {
        given(alloc, int(order_without_case(first, second) as i128), store)
    } else {
        given(alloc, int(order(first, second) as i128), store)
    }
}
