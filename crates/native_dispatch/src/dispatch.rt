//! What a native function that asks no world computes, by its chapter.
ghost use Rattle.mql_meaning.specs.Natives.{computes};
ghost use Rattle.native_arguments.specs.Arguments.{all_shown};
ghost use Rattle.native_arguments.specs.Done.{Computes};
ghost use Rattle.native_dispatch.specs.Chapters.{in_strings, in_texts, in_arrays, in_numbers, in_times};

use crate::contents::{Chapter, chapter_of};
use mql_meaning::Store;
use native_arguments::{Argument, NativeDone};
use native_array_functions::{
    array_copy, array_free, array_get_as_series, array_initialize, array_is_dynamic, array_maximum,
    array_minimum, array_range, array_resize, array_set_as_series, array_size, array_sort,
    zero_memory,
};
use native_functions::{
    char_to_string, comment, double_to_string, integer_to_string, is_stopped, math_abs, math_ceil,
    math_floor, math_is_valid_number, math_max, math_min, math_mod, math_pow, math_round,
    math_sqrt, normalize_double, short_to_string, string_compare, string_find, string_format,
    string_get_character, string_len, string_replace, string_set_character, string_split,
    string_substr, string_to_double, string_to_integer, string_to_lower, string_to_upper,
    string_trim_left, string_trim_right, time_to_string,
};
use native_times::{struct_to_time, time_to_struct};
use natives::Native;
use std::alloc::Global;
use store_cells::{End, Fault};

/// A native function of the chapter.
fn in_strings(
    alloc: Global,
    native: Native,
    arguments: &[Argument<'_>],
    store: &Store,
) -> Result<NativeDone, Fault>
    ensures { Computes (in_strings native (all_shown arguments.now)) result store.now }
{
    match native {
        Native::StringLen => string_len(alloc, arguments, store),
        Native::StringSubstr => string_substr(alloc, arguments, store),
        Native::StringFind => string_find(alloc, arguments, store),
        Native::StringReplace => string_replace(alloc, arguments, store),
        Native::StringTrimLeft => string_trim_left(alloc, arguments, store),
        Native::StringTrimRight => string_trim_right(alloc, arguments, store),
        Native::StringToLower => string_to_lower(alloc, arguments, store),
        Native::StringToUpper => string_to_upper(alloc, arguments, store),
        Native::StringGetCharacter => string_get_character(alloc, arguments, store),
        Native::StringSetCharacter => string_set_character(alloc, arguments, store),
        Native::StringSplit => string_split(alloc, arguments, store),
        Native::StringCompare => string_compare(alloc, arguments, store),
        _ => Err(Fault::End(End::Stuck)),
    }
}

/// A native function of the chapter.
fn in_texts(
    alloc: Global,
    native: Native,
    arguments: &[Argument<'_>],
    store: &Store,
) -> Result<NativeDone, Fault>
    ensures { Computes (in_texts native (all_shown arguments.now)) result store.now }
{
    match native {
        Native::StringToInteger => string_to_integer(alloc, arguments, store),
        Native::StringToDouble => string_to_double(alloc, arguments, store),
        Native::IntegerToString => integer_to_string(alloc, arguments, store),
        Native::DoubleToString => double_to_string(alloc, arguments, store),
        Native::TimeToString => time_to_string(alloc, arguments, store),
        Native::CharToString => char_to_string(alloc, arguments, store),
        Native::ShortToString => short_to_string(alloc, arguments, store),
        Native::StringFormat => string_format(alloc, arguments, store),
        _ => Err(Fault::End(End::Stuck)),
    }
}

/// A native function of the chapter.
fn in_arrays(
    alloc: Global,
    native: Native,
    arguments: &[Argument<'_>],
    store: &Store,
) -> Result<NativeDone, Fault>
    ensures { Computes (in_arrays native (all_shown arguments.now)) result store.now }
{
    match native {
        Native::ArraySize => array_size(alloc, arguments, store),
        Native::ArrayRange => array_range(alloc, arguments, store),
        Native::ArrayResize => array_resize(alloc, arguments, store),
        Native::ArrayFree => array_free(alloc, arguments, store),
        Native::ArrayInitialize => array_initialize(alloc, arguments, store),
        Native::ArrayCopy => array_copy(alloc, arguments, store),
        Native::ArraySetAsSeries => array_set_as_series(alloc, arguments, store),
        Native::ArrayGetAsSeries => array_get_as_series(alloc, arguments, store),
        Native::ArraySort => array_sort(alloc, arguments, store),
        Native::ArrayMaximum => array_maximum(alloc, arguments, store),
        Native::ArrayMinimum => array_minimum(alloc, arguments, store),
        Native::ArrayIsDynamic => array_is_dynamic(alloc, arguments, store),
        Native::ZeroMemory => zero_memory(alloc, arguments, store),
        _ => Err(Fault::End(End::Stuck)),
    }
}

/// A native function of the chapter.
fn in_numbers(
    alloc: Global,
    native: Native,
    arguments: &[Argument<'_>],
    store: &Store,
) -> Result<NativeDone, Fault>
    ensures { Computes (in_numbers native (all_shown arguments.now)) result store.now }
{
    match native {
        Native::MathAbs => math_abs(alloc, arguments, store),
        Native::MathMax => math_max(alloc, arguments, store),
        Native::MathMin => math_min(alloc, arguments, store),
        Native::MathFloor => math_floor(alloc, arguments, store),
        Native::MathCeil => math_ceil(alloc, arguments, store),
        Native::MathRound => math_round(alloc, arguments, store),
        Native::MathSqrt => math_sqrt(alloc, arguments, store),
        Native::MathMod => math_mod(alloc, arguments, store),
        Native::MathPow => math_pow(alloc, arguments, store),
        Native::MathIsValidNumber => math_is_valid_number(alloc, arguments, store),
        Native::NormalizeDouble => normalize_double(alloc, arguments, store),
        _ => Err(Fault::End(End::Stuck)),
    }
}

/// A native function of the chapter.
fn in_times(
    alloc: Global,
    native: Native,
    arguments: &[Argument<'_>],
    store: &Store,
) -> Result<NativeDone, Fault>
    ensures { Computes (in_times native (all_shown arguments.now)) result store.now }
{
    match native {
        Native::Comment => comment(alloc, store),
        Native::TimeToStruct => time_to_struct(alloc, arguments, store),
        Native::StructToTime => struct_to_time(alloc, arguments, store),
        Native::IsStopped => is_stopped(alloc, store),
        _ => Err(Fault::End(End::Stuck)),
    }
}

/// What a native function that asks no world computes of its arguments: its value, what its reference
/// arguments become, and whether an argument was out of range; or how it ends the run.
pub fn computes(
    alloc: Global,
    native: Native,
    arguments: &[Argument<'_>],
    store: &Store,
) -> Result<NativeDone, Fault>
    ensures { Computes (computes native (all_shown arguments.now)) result store.now }
{
    match chapter_of(native) {
        Chapter::Strings => in_strings(alloc, native, arguments, store),
        Chapter::Texts => in_texts(alloc, native, arguments, store),
        Chapter::Arrays => in_arrays(alloc, native, arguments, store),
        Chapter::Numbers => in_numbers(alloc, native, arguments, store),
        Chapter::Times => in_times(alloc, native, arguments, store),
        Chapter::Elsewhere => Err(Fault::End(End::Stuck)),
    }
}
