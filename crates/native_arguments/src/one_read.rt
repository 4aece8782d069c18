//! One argument that is read.
ghost use Rattle.std.specs.Prelude.{◌≡◌, Some, None, MatchOption};
ghost use Rattle.native_arguments.specs.Arguments.{all_shown, array_in, cell_in, double_in, lent_string_in, number_in, parts_of, read_1, string_in, value_in};
ghost use Rattle.store_places.specs.Seen.{seen};

use crate::argument::{Argument, Array};
use crate::counts::one;
use crate::readers::{array, cell, double, lent_string, number, string, value};
use fx8::Fix8;
use mql_mean::Value;
use store_places::Seen;

/// The one argument, where it is a value; `None` exactly where it is not.
#[tactic(auto, using(crate::proofs::Reading::single_none, crate::proofs::Reading::single_first, crate::proofs::Reading::single_all))]
pub fn one_value<'a>(arguments: &[Argument<'a>]) -> Option<&'a Value>
    ensures { MatchOption result (read_1 value_in (all_shown arguments.now) ≡ None)
        (λ t. read_1 value_in (all_shown arguments.now) ≡ Some t.now) }
{
    let x = one(arguments)?;
    let first = value(x)?;
    Some(first)
}

/// The one argument, where it is what is lent; `None` exactly where it is not.
#[tactic(auto, using(crate::proofs::Reading::single_none, crate::proofs::Reading::single_first, crate::proofs::Reading::single_all))]
pub fn one_cell<'a>(arguments: &[Argument<'a>]) -> Option<Seen<'a>>
    ensures { MatchOption result (read_1 cell_in (all_shown arguments.now) ≡ None)
        (λ t. read_1 cell_in (all_shown arguments.now) ≡ Some (seen t)) }
{
    let x = one(arguments)?;
    let first = cell(x)?;
    Some(first)
}

/// The one argument, where it is a number; `None` exactly where it is not.
#[tactic(auto, using(crate::proofs::Reading::single_none, crate::proofs::Reading::single_first, crate::proofs::Reading::single_all))]
pub fn one_number(arguments: &[Argument<'_>]) -> Option<i128>
    ensures { MatchOption result (read_1 number_in (all_shown arguments.now) ≡ None)
        (λ t. read_1 number_in (all_shown arguments.now) ≡ Some t) }
{
    let x = one(arguments)?;
    let first = number(x)?;
    Some(first)
}

/// The one argument, where it is a double; `None` exactly where it is not.
#[tactic(auto, using(crate::proofs::Reading::single_none, crate::proofs::Reading::single_first, crate::proofs::Reading::single_all))]
pub fn one_double(arguments: &[Argument<'_>]) -> Option<Fix8>
    ensures { MatchOption result (read_1 double_in (all_shown arguments.now) ≡ None)
        (λ t. read_1 double_in (all_shown arguments.now) ≡ Some t) }
{
    let x = one(arguments)?;
    let first = double(x)?;
    Some(first)
}

/// The one argument, where it is a string; `None` exactly where it is not.
#[tactic(auto, using(crate::proofs::Reading::single_none, crate::proofs::Reading::single_first, crate::proofs::Reading::single_all))]
pub fn one_string<'a>(arguments: &[Argument<'a>]) -> Option<&'a [u16]>
    ensures { MatchOption result (read_1 string_in (all_shown arguments.now) ≡ None)
        (λ t. read_1 string_in (all_shown arguments.now) ≡ Some t.now) }
{
    let x = one(arguments)?;
    let first = string(x)?;
    Some(first)
}

/// The one argument, where it is a lent string; `None` exactly where it is not.
#[tactic(auto, using(crate::proofs::Reading::single_none, crate::proofs::Reading::single_first, crate::proofs::Reading::single_all))]
pub fn one_lent_string<'a>(arguments: &[Argument<'a>]) -> Option<&'a [u16]>
    ensures { MatchOption result (read_1 lent_string_in (all_shown arguments.now) ≡ None)
        (λ t. read_1 lent_string_in (all_shown arguments.now) ≡ Some t.now) }
{
    let x = one(arguments)?;
    let first = lent_string(x)?;
    Some(first)
}

/// The one argument, where it is a lent array; `None` exactly where it is not.
#[tactic(auto, using(crate::proofs::Reading::single_none, crate::proofs::Reading::single_first, crate::proofs::Reading::single_all))]
pub fn one_array<'a>(arguments: &[Argument<'a>]) -> Option<Array<'a>>
    ensures { MatchOption result (read_1 array_in (all_shown arguments.now) ≡ None)
        (λ t. read_1 array_in (all_shown arguments.now) ≡ Some (parts_of t)) }
{
    let x = one(arguments)?;
    let first = array(x)?;
    Some(first)
}
