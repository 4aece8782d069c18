//! Native functions of numbers, once their arguments are read (MQL5 Reference, Math Functions; Conversion
//! Functions, NormalizeDouble).
ghost use Rattle.std.specs.Prelude.{◌≡◌, true};
ghost use Rattle.fx8.specs.Doubles.{normalized};
ghost use Rattle.mql_meaning.specs.Operators.{no_fault};
ghost use Rattle.mql_meaning.specs.StringFunctions.{decimals_of};
ghost use Rattle.mql_meaning.specs.MathFunctions as numbers;
ghost use Rattle.mql_meaning.specs.Natives as meaning;
ghost use Rattle.native_arguments.specs.Done.{Computes};
ghost use Rattle.native_functions.specs.Doubles.{as_double};
ghost use Rattle.native_math.specs.Outcomes.{outcome};

use crate::values::{given, given_double, truth_value};
use fx8::{Fix8, FixFault};
use mql_mean::{ErrorKind, Value};
use mql_meaning::Store;
use native_arguments::NativeDone;
use native_math::{
    ceil_of, floor_of, greater, greater_double, lesser, lesser_double, normalize, power, rest_of,
    round, size_in, size_of_double, square_root,
};
use std::alloc::Global;
use store_cells::{End, Fault};
use store_places::failed;
use store_values::no_fault;

/// A double, or the error of a fault of arithmetic.
#[tactic(auto, using(crate::proofs::Ranges::stops, crate::proofs::Ranges::goes))]
fn double_or_error(
    alloc: Global,
    number: Result<Fix8, FixFault>,
    store: &Store,
) -> Result<NativeDone, Fault>
    ensures { Computes (as_double (no_fault number)) result store.now }
{
    let number = no_fault(number, store)?;
    given_double(alloc, number, store)
}

/// A double, or an error at the line in force.
fn double_or_failed(
    alloc: Global,
    number: Result<Fix8, ErrorKind>,
    store: &Store,
) -> Result<NativeDone, Fault>
    ensures { Computes (as_double (outcome number)) result store.now }
{
    match number {
        Ok(number) => given_double(alloc, number, store),
        Err(kind) => Err(Fault::End(failed(kind, store))),
    }
}

/// The size of a number (MathAbs).
pub(crate) fn size(alloc: Global, value: &Value, store: &Store) -> Result<NativeDone, Fault>
    ensures { Computes (meaning.of_number numbers.size_of value.now) result store.now }
{
    match value {
        Value::Num(kind, number) => given(alloc, Value::Num(*kind, size_in(*kind, *number)), store),
        Value::Dbl(number) => double_or_error(alloc, size_of_double(*number), store),
        Value::Str(_) => Err(Fault::End(End::Stuck)),
        Value::Ptr(_) => Err(Fault::End(End::Stuck)),
        Value::Arr(_) => Err(Fault::End(End::Stuck)),
        Value::Rec(_) => Err(Fault::End(End::Stuck)),
    }
}

/// The greater of two numbers (MathMax).
pub(crate) fn greatest(
    alloc: Global,
    first: &Value,
    second: &Value,
    store: &Store,
) -> Result<NativeDone, Fault>
    ensures { Computes (meaning.of_numbers numbers.greater first.now second.now) result store.now }
{
    match first {
        Value::Num(kind, x) => match second {
            Value::Num(_, y) => given(alloc, Value::Num(*kind, greater(*x, *y)), store),
            _ => Err(Fault::End(End::Stuck)),
        },
        Value::Dbl(x) => match second {
            Value::Dbl(y) => given_double(alloc, greater_double(*x, *y), store),
            _ => Err(Fault::End(End::Stuck)),
        },
        _ => Err(Fault::End(End::Stuck)),
    }
}

/// The lesser of two numbers (MathMin).
pub(crate) fn least(
    alloc: Global,
    first: &Value,
    second: &Value,
    store: &Store,
) -> Result<NativeDone, Fault>
    ensures { Computes (meaning.of_numbers numbers.lesser first.now second.now) result store.now }
{
    match first {
        Value::Num(kind, x) => match second {
            Value::Num(_, y) => given(alloc, Value::Num(*kind, lesser(*x, *y)), store),
            _ => Err(Fault::End(End::Stuck)),
        },
        Value::Dbl(x) => match second {
            Value::Dbl(y) => given_double(alloc, lesser_double(*x, *y), store),
            _ => Err(Fault::End(End::Stuck)),
        },
        _ => Err(Fault::End(End::Stuck)),
    }
}

/// The greatest whole double that is not above a double (MathFloor).
pub(crate) fn floor(alloc: Global, number: Fix8, store: &Store) -> Result<NativeDone, Fault>
    ensures { Computes (as_double (no_fault (numbers.floor_of number))) result store.now }
{
    double_or_error(alloc, floor_of(number), store)
}

/// The least whole double that is not below a double (MathCeil).
pub(crate) fn ceiling(alloc: Global, number: Fix8, store: &Store) -> Result<NativeDone, Fault>
    ensures { Computes (as_double (no_fault (numbers.ceil_of number))) result store.now }
{
    double_or_error(alloc, ceil_of(number), store)
}

/// A double rounded to a whole one (MathRound).
pub(crate) fn rounded(alloc: Global, number: Fix8, store: &Store) -> Result<NativeDone, Fault>
    ensures { Computes (as_double (no_fault (normalized 0 number))) result store.now }
{
    double_or_error(alloc, round(number), store)
}

/// The square root of a double (MathSqrt).
#[tactic(auto, using(crate::proofs::Ranges::begun))]
pub(crate) fn root(alloc: Global, number: Fix8, store: &Store) -> Result<NativeDone, Fault>
    ensures { Computes (as_double (numbers.square_root number)) result store.now }
{
    double_or_failed(alloc, square_root(number), store)
}

/// What is left of a double by another one (MathMod).
pub(crate) fn rest(
    alloc: Global,
    first: Fix8,
    second: Fix8,
    store: &Store,
) -> Result<NativeDone, Fault>
    ensures { Computes (as_double (no_fault (numbers.rest_of first second))) result store.now }
{
    double_or_error(alloc, rest_of(first, second), store)
}

/// A double to the power of another one (MathPow).
#[tactic(auto, using(crate::proofs::Ranges::begun))]
pub(crate) fn raised_to(
    alloc: Global,
    first: Fix8,
    second: Fix8,
    store: &Store,
) -> Result<NativeDone, Fault>
    ensures { Computes (as_double (numbers.power first second)) result store.now }
{
    double_or_failed(alloc, power(first, second), store)
}

/// Whether a double is a number, which each is (MathIsValidNumber).
pub(crate) fn is_number(alloc: Global, _number: Fix8, store: &Store) -> Result<NativeDone, Fault>
    ensures { Computes (meaning.gives (meaning.truth_value true)) result store.now }
{
    given(alloc, truth_value(true), store)
}

/// A double rounded to so many decimals (NormalizeDouble).
pub(crate) fn with_decimals(
    alloc: Global,
    number: Fix8,
    digits: i128,
    store: &Store,
) -> Result<NativeDone, Fault>
    ensures { Computes (as_double (no_fault (normalized (decimals_of digits) number)))
        result store.now }
{
    double_or_error(alloc, normalize(number, digits), store)
}
