//! What an argument is read as.
ghost use Rattle.std.specs.Prelude.{◌≡◌, Some, None, MatchOption};
ghost use Rattle.native_arguments.specs.Arguments.{array_in, cell_in, double_in, lent_string_in, number_in, parts_of, shown, string_in, value_in};
ghost use Rattle.store_places.specs.Seen.{seen};

use crate::argument::{Argument, Array};
use fx8::Fix8;
use mql_mean::Value;
use mql_meaning::Cell;
use store_places::Seen;

/// The value of an argument; `None` exactly where it is none.
pub fn value<'a>(argument: Argument<'a>) -> Option<&'a Value>
    ensures { MatchOption result (value_in (shown argument.entry) ≡ None)
        (λ v. value_in (shown argument.entry) ≡ Some v.now) }
{
    match argument {
        Argument::Given(value) => Some(value),
        Argument::Lent(_) => None,
    }
}

/// What is lent of an argument; `None` exactly where it is a value.
pub fn cell<'a>(argument: Argument<'a>) -> Option<Seen<'a>>
    ensures { MatchOption result (cell_in (shown argument.entry) ≡ None)
        (λ s. cell_in (shown argument.entry) ≡ Some (seen s)) }
{
    match argument {
        Argument::Given(_) => None,
        Argument::Lent(part) => Some(part),
    }
}

/// The number of an argument of an integer kind; `None` exactly where it has none.
pub fn number(argument: Argument<'_>) -> Option<i128>
    ensures { result ≡ number_in (shown argument.entry) }
{
    match argument {
        Argument::Given(Value::Num(_, number)) => Some(*number),
        Argument::Given(_) => None,
        Argument::Lent(_) => None,
    }
}

/// The double that an argument is; `None` exactly where it is none.
pub fn double(argument: Argument<'_>) -> Option<Fix8>
    ensures { result ≡ double_in (shown argument.entry) }
{
    match argument {
        Argument::Given(Value::Dbl(number)) => Some(*number),
        Argument::Given(_) => None,
        Argument::Lent(_) => None,
    }
}

/// The string that an argument is; `None` exactly where it is none.
pub fn string<'a>(argument: Argument<'a>) -> Option<&'a [u16]>
    ensures { MatchOption result (string_in (shown argument.entry) ≡ None)
        (λ t. string_in (shown argument.entry) ≡ Some t.now) }
{
    match argument {
        Argument::Given(Value::Str(text)) => Some(text.as_slice()),
        Argument::Given(_) => None,
        Argument::Lent(_) => None,
    }
}

/// The string that stands at the place of an argument; `None` exactly where none does.
pub fn lent_string<'a>(argument: Argument<'a>) -> Option<&'a [u16]>
    ensures { MatchOption result (lent_string_in (shown argument.entry) ≡ None)
        (λ t. lent_string_in (shown argument.entry) ≡ Some t.now) }
{
    match argument {
        Argument::Lent(Seen::Cell(Cell::One(Value::Str(text)))) => Some(text.as_slice()),
        Argument::Lent(_) => None,
        Argument::Given(_) => None,
    }
}

/// The array that stands at the place of an argument; `None` exactly where none does.
pub fn array<'a>(argument: Argument<'a>) -> Option<Array<'a>>
    ensures { MatchOption result (array_in (shown argument.entry) ≡ None)
        (λ a. array_in (shown argument.entry) ≡ Some (parts_of a)) }
{
    match argument {
        Argument::Lent(Seen::Cell(Cell::Array(dynamic, series, unit, items))) => Some(Array {
            dynamic: *dynamic,
            series: *series,
            unit,
            items,
        }),
        Argument::Lent(_) => None,
        Argument::Given(_) => None,
    }
}
