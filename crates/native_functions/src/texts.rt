//! The native functions of texts (MQL5 Reference, Conversion Functions).
ghost use Rattle.natives.specs.declared.native.Native.TheVariants as natives;
ghost use Rattle.mql_meaning.specs.Natives.{computes};
ghost use Rattle.native_arguments.specs.Arguments.{all_shown};
ghost use Rattle.native_arguments.specs.Done.{Computes};

use crate::text_parts::{double, double_text, integer, integer_text, time_text, unit_text};
use mql_meaning::Store;
use native_arguments::{
    Argument, NativeDone, double_number, one_number, one_string, three_numbers, two_numbers,
};
use std::alloc::Global;
use store_cells::{End, Fault};

/// `StringToInteger`.
pub fn string_to_integer(
    alloc: Global,
    arguments: &[Argument<'_>],
    store: &Store,
) -> Result<NativeDone, Fault>
    ensures { Computes (computes natives.StringToInteger (all_shown arguments.now)) result store.now }
{
    match one_string(arguments) {
        Some(first) => integer(alloc, first, store),
        None => Err(Fault::End(End::Stuck)),
    }
}

/// `StringToDouble`.
pub fn string_to_double(
    alloc: Global,
    arguments: &[Argument<'_>],
    store: &Store,
) -> Result<NativeDone, Fault>
    ensures { Computes (computes natives.StringToDouble (all_shown arguments.now)) result store.now }
{
    match one_string(arguments) {
        Some(first) => double(alloc, first, store),
        None => Err(Fault::End(End::Stuck)),
    }
}

/// `IntegerToString`.
pub fn integer_to_string(
    alloc: Global,
    arguments: &[Argument<'_>],
    store: &Store,
) -> Result<NativeDone, Fault>
    ensures { Computes (computes natives.IntegerToString (all_shown arguments.now)) result store.now }
{
    match three_numbers(arguments) {
        Some((first, second, third)) => integer_text(alloc, first, second, third, store),
        None => Err(Fault::End(End::Stuck)),
    }
}

/// `DoubleToString`.
pub fn double_to_string(
    alloc: Global,
    arguments: &[Argument<'_>],
    store: &Store,
) -> Result<NativeDone, Fault>
    ensures { Computes (computes natives.DoubleToString (all_shown arguments.now)) result store.now }
{
    match double_number(arguments) {
        Some((first, second)) => double_text(alloc, first, second, store),
        None => Err(Fault::End(End::Stuck)),
    }
}

/// `TimeToString`.
pub fn time_to_string(
    alloc: Global,
    arguments: &[Argument<'_>],
    store: &Store,
) -> Result<NativeDone, Fault>
    ensures { Computes (computes natives.TimeToString (all_shown arguments.now)) result store.now }
{
    match two_numbers(arguments) {
        Some((first, second)) => time_text(alloc, first, second, store),
        None => Err(Fault::End(End::Stuck)),
    }
}

/// `CharToString`.
pub fn char_to_string(
    alloc: Global,
    arguments: &[Argument<'_>],
    store: &Store,
) -> Result<NativeDone, Fault>
    ensures { Computes (computes natives.CharToString (all_shown arguments.now)) result store.now }
{
    match one_number(arguments) {
        Some(first) => unit_text(alloc, first, store),
        None => Err(Fault::End(End::Stuck)),
    }
}

/// `ShortToString`.
pub fn short_to_string(
    alloc: Global,
    arguments: &[Argument<'_>],
    store: &Store,
) -> Result<NativeDone, Fault>
    ensures { Computes (computes natives.ShortToString (all_shown arguments.now)) result store.now }
{
    match one_number(arguments) {
        Some(first) => unit_text(alloc, first, store),
        None => Err(Fault::End(End::Stuck)),
    }
}
