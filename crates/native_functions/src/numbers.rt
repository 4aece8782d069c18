//! The native functions of numbers (MQL5 Reference, Math Functions; NormalizeDouble).
ghost use Rattle.natives.specs.declared.native.Native.TheVariants as natives;
ghost use Rattle.mql_meaning.specs.Natives.{computes};
ghost use Rattle.native_arguments.specs.Arguments.{all_shown};
ghost use Rattle.native_arguments.specs.Done.{Computes};

use crate::number_parts::{
    ceiling, floor, greatest, is_number, least, raised_to, rest, root, rounded, size, with_decimals,
};
use mql_meaning::Store;
use native_arguments::{
    Argument, NativeDone, double_number, one_double, one_value, two_doubles, two_values,
};
use std::alloc::Global;
use store_cells::{End, Fault};

/// `MathAbs`.
pub fn math_abs(
    alloc: Global,
    arguments: &[Argument<'_>],
    store: &Store,
) -> Result<NativeDone, Fault>
    ensures { Computes (computes natives.MathAbs (all_shown arguments.now)) result store.now }
{
    match one_value(arguments) {
        Some(first) => size(alloc, first, store),
        None => Err(Fault::End(End::Stuck)),
    }
}

/// `MathMax`.
pub fn math_max(
    alloc: Global,
    arguments: &[Argument<'_>],
    store: &Store,
) -> Result<NativeDone, Fault>
    ensures { Computes (computes natives.MathMax (all_shown arguments.now)) result store.now }
{
    match two_values(arguments) {
        Some((first, second)) => greatest(alloc, first, second, store),
        None => Err(Fault::End(End::Stuck)),
    }
}

/// `MathMin`.
pub fn math_min(
    alloc: Global,
    arguments: &[Argument<'_>],
    store: &Store,
) -> Result<NativeDone, Fault>
    ensures { Computes (computes natives.MathMin (all_shown arguments.now)) result store.now }
{
    match two_values(arguments) {
        Some((first, second)) => least(alloc, first, second, store),
        None => Err(Fault::End(End::Stuck)),
    }
}

/// `MathFloor`.
pub fn math_floor(
    alloc: Global,
    arguments: &[Argument<'_>],
    store: &Store,
) -> Result<NativeDone, Fault>
    ensures { Computes (computes natives.MathFloor (all_shown arguments.now)) result store.now }
{
    match one_double(arguments) {
        Some(first) => floor(alloc, first, store),
        None => Err(Fault::End(End::Stuck)),
    }
}

/// `MathCeil`.
pub fn math_ceil(
    alloc: Global,
    arguments: &[Argument<'_>],
    store: &Store,
) -> Result<NativeDone, Fault>
    ensures { Computes (computes natives.MathCeil (all_shown arguments.now)) result store.now }
{
    match one_double(arguments) {
        Some(first) => ceiling(alloc, first, store),
        None => Err(Fault::End(End::Stuck)),
    }
}

/// `MathRound`.
pub fn math_round(
    alloc: Global,
    arguments: &[Argument<'_>],
    store: &Store,
) -> Result<NativeDone, Fault>
    ensures { Computes (computes natives.MathRound (all_shown arguments.now)) result store.now }
{
    match one_double(arguments) {
        Some(first) => rounded(alloc, first, store),
        None => Err(Fault::End(End::Stuck)),
    }
}

/// `MathSqrt`.
pub fn math_sqrt(
    alloc: Global,
    arguments: &[Argument<'_>],
    store: &Store,
) -> Result<NativeDone, Fault>
    ensures { Computes (computes natives.MathSqrt (all_shown arguments.now)) result store.now }
{
    match one_double(arguments) {
        Some(first) => root(alloc, first, store),
        None => Err(Fault::End(End::Stuck)),
    }
}

/// `MathMod`.
pub fn math_mod(
    alloc: Global,
    arguments: &[Argument<'_>],
    store: &Store,
) -> Result<NativeDone, Fault>
    ensures { Computes (computes natives.MathMod (all_shown arguments.now)) result store.now }
{
    match two_doubles(arguments) {
        Some((first, second)) => rest(alloc, first, second, store),
        None => Err(Fault::End(End::Stuck)),
    }
}

/// `MathPow`.
pub fn math_pow(
    alloc: Global,
    arguments: &[Argument<'_>],
    store: &Store,
) -> Result<NativeDone, Fault>
    ensures { Computes (computes natives.MathPow (all_shown arguments.now)) result store.now }
{
    match two_doubles(arguments) {
        Some((first, second)) => raised_to(alloc, first, second, store),
        None => Err(Fault::End(End::Stuck)),
    }
}

/// `MathIsValidNumber`.
pub fn math_is_valid_number(
    alloc: Global,
    arguments: &[Argument<'_>],
    store: &Store,
) -> Result<NativeDone, Fault>
    ensures { Computes (computes natives.MathIsValidNumber (all_shown arguments.now)) result store.now }
{
    match one_double(arguments) {
        Some(first) => is_number(alloc, first, store),
        None => Err(Fault::End(End::Stuck)),
    }
}

/// `NormalizeDouble`.
pub fn normalize_double(
    alloc: Global,
    arguments: &[Argument<'_>],
    store: &Store,
) -> Result<NativeDone, Fault>
    ensures { Computes (computes natives.NormalizeDouble (all_shown arguments.now)) result store.now }
{
    match double_number(arguments) {
        Some((first, second)) => with_decimals(alloc, first, second, store),
        None => Err(Fault::End(End::Stuck)),
    }
}
