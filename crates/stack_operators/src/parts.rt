//! What values without parts hold.
ghost use Rattle.std.specs.Prelude.{◌≡◌};
ghost use Rattle.mql_meaning.specs.Operators as operators;
ghost use Rattle.mql_meaning.specs.Places.{number_of, serial_of};

use fx8::{Fix8, Text};
use mql_mean::Value;

/// The number of a value of an integer kind.
pub(crate) fn number_of(value: &Value) -> Option<i128>
    ensures { result ≡ number_of value.now }
{
    match value {
        Value::Num(_, number) => Some(*number),
        _ => None,
    }
}

/// A double.
pub(crate) fn double_in(value: &Value) -> Option<Fix8>
    ensures { result ≡ operators.units_of value.now }
{
    match value {
        Value::Dbl(number) => Some(*number),
        _ => None,
    }
}

/// The units of a string.
pub(crate) fn string_in(value: Value) -> Option<Text>
    ensures { result ≡ operators.string_of value }
{
    match value {
        Value::Str(units) => Some(units),
        _ => None,
    }
}

/// The serial that a pointer holds, 0 for `NULL`.
pub(crate) fn serial_of(value: &Value) -> Option<u64>
    ensures { result ≡ serial_of value.now }
{
    match value {
        Value::Ptr(serial) => Some(*serial),
        _ => None,
    }
}
