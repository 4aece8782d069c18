//! What arguments are as numbers and as texts.
ghost use Rattle.std.specs.Prelude.{◌≡◌, unsigned_abs, IfOk};
ghost use Rattle.fx8.specs.declared.int_kind.IntKind.TheVariants as kinds;
ghost use Rattle.fx8.specs.Integers.{wrapped};
ghost use Rattle.mql_mean.specs.declared.value.Value.{out-Value};
ghost use Rattle.mql_meaning.specs.Formats.{double_at, string_at, whole_at};

use fx8::{Fix8, FixFault, IntKind, OutOfMemory, Text, wrap};
use mql_mean::Value;
use native_conversions::{double_of, double_text, integer_of, number_text};
use std::alloc::Global;

/// An argument as a whole number: a `double` without its fraction, and the number that a text begins with.
fn whole_at(value: &Value) -> i128
    ensures { result ≡ whole_at (out-Value value.now) }
{
    match value {
        Value::Num(_, number) => *number,
        Value::Dbl(number) => number.whole() as i128,
        Value::Str(text) => integer_of(text.as_slice()) as i128,
        Value::Ptr(_) | Value::Arr(_) | Value::Rec(_) => 0,
    }
}

/// An argument as a `long`.
pub(crate) fn long_of(value: &Value) -> i128
    ensures { result ≡ wrapped kinds.Long (whole_at (out-Value value.now)) }
{
    wrap(IntKind::Long, whole_at(value))
}

/// An argument as a `ulong`.
pub(crate) fn ulong_of(value: &Value) -> u64
    ensures { result ≡ unsigned_abs (wrapped kinds.Ulong (whole_at (out-Value value.now))) }
{
    wrap(IntKind::Ulong, whole_at(value)).unsigned_abs() as u64
}

/// An argument as a `ushort`.
pub(crate) fn ushort_of(value: &Value) -> u16
    ensures { result ≡ unsigned_abs (wrapped kinds.Ushort (whole_at (out-Value value.now))) }
{
    wrap(IntKind::Ushort, whole_at(value)).unsigned_abs() as u16
}

/// An argument as a `double`; a fault exactly where a whole number is none.
pub(crate) fn double_at(alloc: Global, value: &Value) -> Result<Result<Fix8, FixFault>, OutOfMemory>
    ensures { IfOk result (λ number. number ≡ double_at (out-Value value.now)) }
{
    match value {
        Value::Num(_, number) => Ok(Fix8::of_whole(*number)),
        Value::Dbl(number) => Ok(Ok(*number)),
        Value::Str(text) => Ok(Ok(double_of(alloc, text.as_slice())?)),
        Value::Ptr(_) | Value::Arr(_) | Value::Rec(_) => Ok(Ok(Fix8::of_units(0))),
    }
}

/// An argument as a text.
pub(crate) fn string_at(alloc: Global, value: &Value) -> Result<Text, OutOfMemory>
    ensures { IfOk result (λ text. text ≡ string_at (out-Value value.now)) }
{
    match value {
        Value::Num(kind, number) => number_text(alloc, *kind, *number),
        Value::Dbl(number) => double_text(alloc, *number),
        Value::Str(text) => Text::from_slice(alloc, text.as_slice()),
        Value::Ptr(_) | Value::Arr(_) | Value::Rec(_) => Ok(Text::new(alloc)),
    }
}
