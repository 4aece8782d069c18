//! The native functions of strings (MQL5 Reference, String Functions).
ghost use Rattle.natives.specs.declared.native.Native.TheVariants as natives;
ghost use Rattle.mql_meaning.specs.Natives.{computes};
ghost use Rattle.native_arguments.specs.Arguments.{all_shown};
ghost use Rattle.native_arguments.specs.Done.{Computes};

use crate::split_parts::parts;
use crate::string_parts::{
    character, compared, cut, found, left_trimmed, length, replaced, right_trimmed, to_lower,
    to_upper, with_character,
};
use mql_meaning::Store;
use native_arguments::{
    Argument, NativeDone, lent_string_two_numbers, lent_string_two_strings, one_lent_string,
    one_string, string_number, string_number_array, string_two_numbers, two_strings_number,
};
use std::alloc::Global;
use store_cells::{End, Fault};

/// `StringLen`.
pub fn string_len(
    alloc: Global,
    arguments: &[Argument<'_>],
    store: &Store,
) -> Result<NativeDone, Fault>
    ensures { Computes (computes natives.StringLen (all_shown arguments.now)) result store.now }
{
    match one_string(arguments) {
        Some(first) => length(alloc, first, store),
        None => Err(Fault::End(End::Stuck)),
    }
}

/// `StringSubstr`.
pub fn string_substr(
    alloc: Global,
    arguments: &[Argument<'_>],
    store: &Store,
) -> Result<NativeDone, Fault>
    ensures { Computes (computes natives.StringSubstr (all_shown arguments.now)) result store.now }
{
    match string_two_numbers(arguments) {
        Some((first, second, third)) => cut(alloc, first, second, third, store),
        None => Err(Fault::End(End::Stuck)),
    }
}

/// `StringFind`.
pub fn string_find(
    alloc: Global,
    arguments: &[Argument<'_>],
    store: &Store,
) -> Result<NativeDone, Fault>
    ensures { Computes (computes natives.StringFind (all_shown arguments.now)) result store.now }
{
    match two_strings_number(arguments) {
        Some((first, second, third)) => found(alloc, first, second, third, store),
        None => Err(Fault::End(End::Stuck)),
    }
}

/// `StringReplace`.
pub fn string_replace(
    alloc: Global,
    arguments: &[Argument<'_>],
    store: &Store,
) -> Result<NativeDone, Fault>
    ensures { Computes (computes natives.StringReplace (all_shown arguments.now)) result store.now }
{
    match lent_string_two_strings(arguments) {
        Some((first, second, third)) => replaced(alloc, first, second, third, store),
        None => Err(Fault::End(End::Stuck)),
    }
}

/// `StringTrimLeft`.
pub fn string_trim_left(
    alloc: Global,
    arguments: &[Argument<'_>],
    store: &Store,
) -> Result<NativeDone, Fault>
    ensures { Computes (computes natives.StringTrimLeft (all_shown arguments.now)) result store.now }
{
    match one_lent_string(arguments) {
        Some(first) => left_trimmed(alloc, first, store),
        None => Err(Fault::End(End::Stuck)),
    }
}

/// `StringTrimRight`.
pub fn string_trim_right(
    alloc: Global,
    arguments: &[Argument<'_>],
    store: &Store,
) -> Result<NativeDone, Fault>
    ensures { Computes (computes natives.StringTrimRight (all_shown arguments.now)) result store.now }
{
    match one_lent_string(arguments) {
        Some(first) => right_trimmed(alloc, first, store),
        None => Err(Fault::End(End::Stuck)),
    }
}

/// `StringToLower`.
pub fn string_to_lower(
    alloc: Global,
    arguments: &[Argument<'_>],
    store: &Store,
) -> Result<NativeDone, Fault>
    ensures { Computes (computes natives.StringToLower (all_shown arguments.now)) result store.now }
{
    match one_lent_string(arguments) {
        Some(first) => to_lower(alloc, first, store),
        None => Err(Fault::End(End::Stuck)),
    }
}

/// `StringToUpper`.
pub fn string_to_upper(
    alloc: Global,
    arguments: &[Argument<'_>],
    store: &Store,
) -> Result<NativeDone, Fault>
    ensures { Computes (computes natives.StringToUpper (all_shown arguments.now)) result store.now }
{
    match one_lent_string(arguments) {
        Some(first) => to_upper(alloc, first, store),
        None => Err(Fault::End(End::Stuck)),
    }
}

/// `StringGetCharacter`.
pub fn string_get_character(
    alloc: Global,
    arguments: &[Argument<'_>],
    store: &Store,
) -> Result<NativeDone, Fault>
    ensures { Computes (computes natives.StringGetCharacter (all_shown arguments.now)) result store.now }
{
    match string_number(arguments) {
        Some((first, second)) => character(alloc, first, second, store),
        None => Err(Fault::End(End::Stuck)),
    }
}

/// `StringSetCharacter`.
pub fn string_set_character(
    alloc: Global,
    arguments: &[Argument<'_>],
    store: &Store,
) -> Result<NativeDone, Fault>
    ensures { Computes (computes natives.StringSetCharacter (all_shown arguments.now)) result store.now }
{
    match lent_string_two_numbers(arguments) {
        Some((first, second, third)) => with_character(alloc, first, second, third, store),
        None => Err(Fault::End(End::Stuck)),
    }
}

/// `StringSplit`.
pub fn string_split(
    alloc: Global,
    arguments: &[Argument<'_>],
    store: &Store,
) -> Result<NativeDone, Fault>
    ensures { Computes (computes natives.StringSplit (all_shown arguments.now)) result store.now }
{
    match string_number_array(arguments) {
        Some((first, second, third)) => parts(alloc, first, second, third, store),
        None => Err(Fault::End(End::Stuck)),
    }
}

/// `StringCompare`.
pub fn string_compare(
    alloc: Global,
    arguments: &[Argument<'_>],
    store: &Store,
) -> Result<NativeDone, Fault>
    ensures { Computes (computes natives.StringCompare (all_shown arguments.now)) result store.now }
{
    match two_strings_number(arguments) {
        Some((first, second, third)) => compared(alloc, first, second, third, store),
        None => Err(Fault::End(End::Stuck)),
    }
}
