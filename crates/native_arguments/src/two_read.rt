//! Two arguments that are read.
ghost use Rattle.std.specs.Prelude.{◌≡◌, Some, None, MatchOption};
ghost use Rattle.native_arguments.specs.Arguments.{all_shown, array_in, cell_in, double_in, number_in, parts_of, read_2, string_in, value_in};
ghost use Rattle.store_places.specs.Seen.{seen};

use crate::argument::{Argument, Array};
use crate::counts::two;
use crate::readers::{array, cell, double, number, string, value};
use fx8::Fix8;
use mql_mean::Value;
use store_places::Seen;

/// The arguments, where the arguments are a string, a number; `None` exactly where they are not.
#[tactic(auto, using(crate::proofs::Reading::pair_none, crate::proofs::Reading::pair_first, crate::proofs::Reading::pair_all))]
pub fn string_number<'a>(arguments: &[Argument<'a>]) -> Option<(&'a [u16], i128)>
    ensures { MatchOption result (read_2 string_in number_in (all_shown arguments.now) ≡ None)
        (λ t. read_2 string_in number_in (all_shown arguments.now) ≡ Some (t.0.now, t.1)) }
{
    let (x, y) = two(arguments)?;
    let first = string(x)?;
    let second = number(y)?;
    Some((first, second))
}

/// The arguments, where the arguments are a double, a number; `None` exactly where they are not.
#[tactic(auto, using(crate::proofs::Reading::pair_none, crate::proofs::Reading::pair_first, crate::proofs::Reading::pair_all))]
pub fn double_number(arguments: &[Argument<'_>]) -> Option<(Fix8, i128)>
    ensures { MatchOption result (read_2 double_in number_in (all_shown arguments.now) ≡ None)
        (λ t. read_2 double_in number_in (all_shown arguments.now) ≡ Some (t.0, t.1)) }
{
    let (x, y) = two(arguments)?;
    let first = double(x)?;
    let second = number(y)?;
    Some((first, second))
}

/// The arguments, where the arguments are a number, a number; `None` exactly where they are not.
#[tactic(auto, using(crate::proofs::Reading::pair_none, crate::proofs::Reading::pair_first, crate::proofs::Reading::pair_all))]
pub fn two_numbers(arguments: &[Argument<'_>]) -> Option<(i128, i128)>
    ensures { MatchOption result (read_2 number_in number_in (all_shown arguments.now) ≡ None)
        (λ t. read_2 number_in number_in (all_shown arguments.now) ≡ Some (t.0, t.1)) }
{
    let (x, y) = two(arguments)?;
    let first = number(x)?;
    let second = number(y)?;
    Some((first, second))
}

/// The arguments, where the arguments are a lent array, a number; `None` exactly where they are not.
#[tactic(auto, using(crate::proofs::Reading::pair_none, crate::proofs::Reading::pair_first, crate::proofs::Reading::pair_all))]
pub fn array_number<'a>(arguments: &[Argument<'a>]) -> Option<(Array<'a>, i128)>
    ensures { MatchOption result (read_2 array_in number_in (all_shown arguments.now) ≡ None)
        (λ t. read_2 array_in number_in (all_shown arguments.now) ≡ Some ((parts_of t.0), t.1)) }
{
    let (x, y) = two(arguments)?;
    let first = array(x)?;
    let second = number(y)?;
    Some((first, second))
}

/// The arguments, where the arguments are what is lent, a value; `None` exactly where they are not.
#[tactic(auto, using(crate::proofs::Reading::pair_none, crate::proofs::Reading::pair_first, crate::proofs::Reading::pair_all))]
pub fn cell_value<'a>(arguments: &[Argument<'a>]) -> Option<(Seen<'a>, &'a Value)>
    ensures { MatchOption result (read_2 cell_in value_in (all_shown arguments.now) ≡ None)
        (λ t. read_2 cell_in value_in (all_shown arguments.now) ≡ Some ((seen t.0), t.1.now)) }
{
    let (x, y) = two(arguments)?;
    let first = cell(x)?;
    let second = value(y)?;
    Some((first, second))
}

/// The arguments, where the arguments are a value, a value; `None` exactly where they are not.
#[tactic(auto, using(crate::proofs::Reading::pair_none, crate::proofs::Reading::pair_first, crate::proofs::Reading::pair_all))]
pub fn two_values<'a>(arguments: &[Argument<'a>]) -> Option<(&'a Value, &'a Value)>
    ensures { MatchOption result (read_2 value_in value_in (all_shown arguments.now) ≡ None)
        (λ t. read_2 value_in value_in (all_shown arguments.now) ≡ Some (t.0.now, t.1.now)) }
{
    let (x, y) = two(arguments)?;
    let first = value(x)?;
    let second = value(y)?;
    Some((first, second))
}

/// The arguments, where the arguments are a double, a double; `None` exactly where they are not.
#[tactic(auto, using(crate::proofs::Reading::pair_none, crate::proofs::Reading::pair_first, crate::proofs::Reading::pair_all))]
pub fn two_doubles(arguments: &[Argument<'_>]) -> Option<(Fix8, Fix8)>
    ensures { MatchOption result (read_2 double_in double_in (all_shown arguments.now) ≡ None)
        (λ t. read_2 double_in double_in (all_shown arguments.now) ≡ Some (t.0, t.1)) }
{
    let (x, y) = two(arguments)?;
    let first = double(x)?;
    let second = double(y)?;
    Some((first, second))
}

/// The arguments, where the arguments are a number, what is lent; `None` exactly where they are not.
#[tactic(auto, using(crate::proofs::Reading::pair_none, crate::proofs::Reading::pair_first, crate::proofs::Reading::pair_all))]
pub fn number_cell<'a>(arguments: &[Argument<'a>]) -> Option<(i128, Seen<'a>)>
    ensures { MatchOption result (read_2 number_in cell_in (all_shown arguments.now) ≡ None)
        (λ t. read_2 number_in cell_in (all_shown arguments.now) ≡ Some (t.0, (seen t.1))) }
{
    let (x, y) = two(arguments)?;
    let first = number(x)?;
    let second = cell(y)?;
    Some((first, second))
}
