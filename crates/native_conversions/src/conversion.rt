//! A value taken into a sort.
ghost use Rattle.std.specs.Prelude.{◌≡◌, ◌≤◌, length, IfOk};
ghost use Rattle.native_conversions.specs.Conversions as conversions;

use crate::digits::integer_of;
use crate::doubles::double_of;
use crate::texts::{double_text, number_text};
use fx8::{Fix8, FixFault, IntKind, OutOfMemory, Text, wrap};
use mql_mean::Value;
use mql_meaning::Sort;
use std::alloc::Global;

/// The longest string, in units.
const MOST_UNITS: u64 = 65_536;

fn a_double(number: Result<Fix8, FixFault>) -> Option<Value>
    ensures { result ≡ conversions.a_double number }
{
    match number {
        Ok(number) => Some(Value::Dbl(number)),
        Err(_) => None,
    }
}

/// A string, where it has at most 65,536 units.
pub fn a_string(text: Text) -> Option<Value>
    ensures { result ≡ conversions.a_string text }
{
    if text.len() <= MOST_UNITS {
        Some(Value::Str(text))
    } else {
        None
    }
}

fn number_as(
    alloc: Global,
    sort: Sort,
    kind: IntKind,
    number: i128,
) -> Result<Option<Value>, OutOfMemory>
    ensures { IfOk result (λ value. value ≡ conversions.number_as sort kind number) }
{
    match sort {
        Sort::Number(to) => Ok(Some(Value::Num(to, wrap(to, number)))),
        Sort::Double => Ok(a_double(Fix8::of_whole(number))),
        Sort::String => Ok(a_string(number_text(alloc, kind, number)?)),
        Sort::Pointer => Ok(None),
    }
}

fn double_as(alloc: Global, sort: Sort, number: Fix8) -> Result<Option<Value>, OutOfMemory>
    ensures { IfOk result (λ value. value ≡ conversions.double_as sort number) }
{
    match sort {
        Sort::Number(to) => Ok(Some(Value::Num(to, wrap(to, number.whole() as i128)))),
        Sort::Double => Ok(Some(Value::Dbl(number))),
        Sort::String => Ok(a_string(double_text(alloc, number)?)),
        Sort::Pointer => Ok(None),
    }
}

fn string_as(alloc: Global, sort: Sort, text: &[u16]) -> Result<Option<Value>, OutOfMemory>
    ensures { IfOk result (λ value. value ≡ conversions.string_as sort text.now) }
{
    match sort {
        Sort::Number(to) => Ok(Some(Value::Num(to, wrap(to, integer_of(text) as i128)))),
        Sort::Double => Ok(Some(Value::Dbl(double_of(alloc, text)?))),
        Sort::String => Ok(a_string(Text::from_slice(alloc, text)?)),
        Sort::Pointer => Ok(None),
    }
}

fn pointer_as(alloc: Global, sort: Sort, serial: u64) -> Option<Value>
    ensures { result ≡ conversions.pointer_as sort serial }
{
    match sort {
        Sort::Number(IntKind::Bool) => {
            Some(Value::Num(IntKind::Bool, if serial == 0 { 0 } else { 1 }))
        }
        Sort::String => if serial == 0 {
            Some(Value::Str(Text::new(alloc)))
        } else {
            None
        },
        Sort::Pointer => Some(Value::Ptr(serial)),
        Sort::Number(_) | Sort::Double => None,
    }
}

/// A value taken into a sort, where it has a value there (MQL5 Reference, Typecasting): a number wraps, a double
/// loses its fraction before it wraps, a text is the number that it begins with, `NULL` is the empty text. It has
/// none where a `double` does not hold the whole number, where the text is longer than 65,536 units, and
/// where types exclude it.
#[tactic(auto, unfolding(crate::specs::Conversions::converted))]
pub fn converted(alloc: Global, value: &Value, sort: Sort) -> Result<Option<Value>, OutOfMemory>
    ensures { IfOk result (λ found. found ≡ conversions.converted sort value.now) }
{
    match value {
        Value::Num(kind, number) => number_as(alloc, sort, *kind, *number),
        Value::Dbl(number) => double_as(alloc, sort, *number),
        Value::Str(text) => string_as(alloc, sort, text.as_slice()),
        Value::Ptr(serial) => Ok(pointer_as(alloc, sort, *serial)),
        Value::Arr(_) | Value::Rec(_) => Ok(None),
    }
}
