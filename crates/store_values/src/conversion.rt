//! Values taken into a sort (MQL5 Reference, Language Basics, Data Types, Typecasting).
ghost use Rattle.std.specs.Prelude.{◌≡◌};
ghost use Rattle.mql_meaning.specs.Operators.{convert, from_double, from_number, from_pointer, from_string, sort_of};
ghost use Rattle.store_cells.specs.Changes.{Gives};

use crate::values::{no_fault, text};
use fx8::{Fix8, IntKind, Text, wrap};
use mql_mean::Value;
use mql_meaning::{Sort, Store};
use native_conversions::{double_of, double_text, integer_of, number_text};
use std::alloc::Global;
use store_cells::{End, Fault};

/// The sort of a value; `None` exactly for arrays and structures.
pub fn sort_of(value: &Value) -> Option<Sort>
    ensures { result ≡ sort_of value.now }
{
    match value {
        Value::Num(kind, _) => Some(Sort::Number(*kind)),
        Value::Dbl(_) => Some(Sort::Double),
        Value::Str(_) => Some(Sort::String),
        Value::Ptr(_) => Some(Sort::Pointer),
        Value::Arr(_) | Value::Rec(_) => None,
    }
}

/// A double as a value.
fn double(number: Fix8) -> Value
    ensures { result ≡ Value.Dbl number }
{
    Value::Dbl(number)
}

fn from_number(
    alloc: Global,
    sort: Sort,
    kind: IntKind,
    number: i128,
    store: &Store,
) -> Result<Value, Fault>
    ensures { Gives (from_number sort kind number) result store.now }
{
    match sort {
        Sort::Number(to) => Ok(Value::Num(to, wrap(to, number))),
        Sort::Double => Ok(double(no_fault(Fix8::of_whole(number), store)?)),
        Sort::String => text(number_text(alloc, kind, number)?, store),
        Sort::Pointer => Err(Fault::End(End::Stuck)),
    }
}

fn from_double(alloc: Global, sort: Sort, number: Fix8, store: &Store) -> Result<Value, Fault>
    ensures { Gives (from_double sort number) result store.now }
{
    match sort {
        Sort::Number(to) => Ok(Value::Num(to, wrap(to, number.whole() as i128))),
        Sort::Double => Ok(Value::Dbl(number)),
        Sort::String => text(double_text(alloc, number)?, store),
        Sort::Pointer => Err(Fault::End(End::Stuck)),
    }
}

fn from_string(alloc: Global, sort: Sort, units: Text, store: &Store) -> Result<Value, Fault>
    ensures { Gives (from_string sort units) result store.now }
{
    match sort {
        Sort::Number(to) => Ok(Value::Num(to, wrap(to, integer_of(units.as_slice()) as i128))),
        Sort::Double => Ok(Value::Dbl(double_of(alloc, units.as_slice())?)),
        Sort::String => text(units, store),
        Sort::Pointer => Err(Fault::End(End::Stuck)),
    }
}

fn from_pointer(alloc: Global, sort: Sort, serial: u64, store: &Store) -> Result<Value, Fault>
    ensures { Gives (from_pointer sort serial) result store.now }
{
    match sort {
        Sort::Number(IntKind::Bool) => {
            Ok(Value::Num(IntKind::Bool, if serial == 0 { 0 } else { 1 }))
        }
        Sort::String => if serial == 0 {
            text(Text::new(alloc), store)
        } else {
            Err(Fault::End(End::Stuck))
        },
        Sort::Pointer => Ok(Value::Ptr(serial)),
        Sort::Number(_) | Sort::Double => Err(Fault::End(End::Stuck)),
    }
}

/// A value taken into a sort: a number wraps, a double loses its fraction before it wraps, a text is the number
/// that it begins with, `NULL` is the empty text. A whole number that no `double` holds, and a text of more than
/// 65,536 units, are errors at the line in force.
pub fn convert(alloc: Global, sort: Sort, value: Value, store: &Store) -> Result<Value, Fault>
    ensures { Gives (convert sort value) result store.now }
{
    match value {
        Value::Num(kind, number) => from_number(alloc, sort, kind, number, store),
        Value::Dbl(number) => from_double(alloc, sort, number, store),
        Value::Str(units) => from_string(alloc, sort, units, store),
        Value::Ptr(serial) => from_pointer(alloc, sort, serial, store),
        Value::Arr(_) | Value::Rec(_) => Err(Fault::End(End::Stuck)),
    }
}
