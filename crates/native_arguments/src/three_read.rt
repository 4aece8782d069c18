//! Three arguments that are read.
ghost use Rattle.std.specs.Prelude.{◌≡◌, Some, None, MatchOption};
ghost use Rattle.native_arguments.specs.Arguments.{all_shown, array_in, cell_in, lent_string_in, number_in, parts_of, read_3, string_in};
ghost use Rattle.store_places.specs.Seen.{seen};

use crate::argument::{Argument, Array};
use crate::counts::three;
use crate::readers::{array, cell, lent_string, number, string};
use store_places::Seen;

/// The arguments, where the arguments are a string, a number, a number; `None` exactly where they are not.
#[tactic(auto, using(crate::proofs::Reading::triple_none, crate::proofs::Reading::triple_first, crate::proofs::Reading::triple_all))]
pub fn string_two_numbers<'a>(arguments: &[Argument<'a>]) -> Option<(&'a [u16], i128, i128)>
    ensures { MatchOption result (read_3 string_in number_in number_in (all_shown arguments.now) ≡ None)
        (λ t. read_3 string_in number_in number_in (all_shown arguments.now) ≡ Some (t.0.now, t.1, t.2)) }
{
    let (x, y, z) = three(arguments)?;
    let first = string(x)?;
    let second = number(y)?;
    let third = number(z)?;
    Some((first, second, third))
}

/// The arguments, where the arguments are a string, a string, a number; `None` exactly where they are not.
#[tactic(auto, using(crate::proofs::Reading::triple_none, crate::proofs::Reading::triple_first, crate::proofs::Reading::triple_all))]
pub fn two_strings_number<'a>(arguments: &[Argument<'a>]) -> Option<(&'a [u16], &'a [u16], i128)>
    ensures { MatchOption result (read_3 string_in string_in number_in (all_shown arguments.now) ≡ None)
        (λ t. read_3 string_in string_in number_in (all_shown arguments.now) ≡ Some (t.0.now, t.1.now, t.2)) }
{
    let (x, y, z) = three(arguments)?;
    let first = string(x)?;
    let second = string(y)?;
    let third = number(z)?;
    Some((first, second, third))
}

/// The arguments, where the arguments are a lent string, a string, a string; `None` exactly where they are not.
#[tactic(auto, using(crate::proofs::Reading::triple_none, crate::proofs::Reading::triple_first, crate::proofs::Reading::triple_all))]
pub fn lent_string_two_strings<'a>(
    arguments: &[Argument<'a>],
) -> Option<(&'a [u16], &'a [u16], &'a [u16])>
    ensures { MatchOption result (read_3 lent_string_in string_in string_in (all_shown arguments.now) ≡ None)
        (λ t. read_3 lent_string_in string_in string_in (all_shown arguments.now)
        ≡ Some (t.0.now, t.1.now, t.2.now)) }
{
    let (x, y, z) = three(arguments)?;
    let first = lent_string(x)?;
    let second = string(y)?;
    let third = string(z)?;
    Some((first, second, third))
}

/// The arguments, where the arguments are a lent string, a number, a number; `None` exactly where they are not.
#[tactic(auto, using(crate::proofs::Reading::triple_none, crate::proofs::Reading::triple_first, crate::proofs::Reading::triple_all))]
pub fn lent_string_two_numbers<'a>(arguments: &[Argument<'a>]) -> Option<(&'a [u16], i128, i128)>
    ensures { MatchOption result (read_3 lent_string_in number_in number_in (all_shown arguments.now) ≡ None)
        (λ t. read_3 lent_string_in number_in number_in (all_shown arguments.now)
        ≡ Some (t.0.now, t.1, t.2)) }
{
    let (x, y, z) = three(arguments)?;
    let first = lent_string(x)?;
    let second = number(y)?;
    let third = number(z)?;
    Some((first, second, third))
}

/// The arguments, where the arguments are a string, a number, a lent array; `None` exactly where they are not.
#[tactic(auto, using(crate::proofs::Reading::triple_none, crate::proofs::Reading::triple_first, crate::proofs::Reading::triple_all))]
pub fn string_number_array<'a>(arguments: &[Argument<'a>]) -> Option<(&'a [u16], i128, Array<'a>)>
    ensures { MatchOption result (read_3 string_in number_in array_in (all_shown arguments.now) ≡ None)
        (λ t. read_3 string_in number_in array_in (all_shown arguments.now)
        ≡ Some (t.0.now, t.1, (parts_of t.2))) }
{
    let (x, y, z) = three(arguments)?;
    let first = string(x)?;
    let second = number(y)?;
    let third = array(z)?;
    Some((first, second, third))
}

/// The arguments, where the arguments are a number, a number, a number; `None` exactly where they are not.
#[tactic(auto, using(crate::proofs::Reading::triple_none, crate::proofs::Reading::triple_first, crate::proofs::Reading::triple_all))]
pub fn three_numbers(arguments: &[Argument<'_>]) -> Option<(i128, i128, i128)>
    ensures { MatchOption result (read_3 number_in number_in number_in (all_shown arguments.now) ≡ None)
        (λ t. read_3 number_in number_in number_in (all_shown arguments.now) ≡ Some (t.0, t.1, t.2)) }
{
    let (x, y, z) = three(arguments)?;
    let first = number(x)?;
    let second = number(y)?;
    let third = number(z)?;
    Some((first, second, third))
}

/// The arguments, where the arguments are a lent array, a number, a number; `None` exactly where they are not.
#[tactic(auto, using(crate::proofs::Reading::triple_none, crate::proofs::Reading::triple_first, crate::proofs::Reading::triple_all))]
pub fn array_two_numbers<'a>(arguments: &[Argument<'a>]) -> Option<(Array<'a>, i128, i128)>
    ensures { MatchOption result (read_3 array_in number_in number_in (all_shown arguments.now) ≡ None)
        (λ t. read_3 array_in number_in number_in (all_shown arguments.now)
        ≡ Some ((parts_of t.0), t.1, t.2)) }
{
    let (x, y, z) = three(arguments)?;
    let first = array(x)?;
    let second = number(y)?;
    let third = number(z)?;
    Some((first, second, third))
}

/// The arguments, where the arguments are what is lent, a number, a number; `None` exactly where they are not.
#[tactic(auto, using(crate::proofs::Reading::triple_none, crate::proofs::Reading::triple_first, crate::proofs::Reading::triple_all))]
pub fn cell_two_numbers<'a>(arguments: &[Argument<'a>]) -> Option<(Seen<'a>, i128, i128)>
    ensures { MatchOption result (read_3 cell_in number_in number_in (all_shown arguments.now) ≡ None)
        (λ t. read_3 cell_in number_in number_in (all_shown arguments.now) ≡ Some ((seen t.0), t.1, t.2)) }
{
    let (x, y, z) = three(arguments)?;
    let first = cell(x)?;
    let second = number(y)?;
    let third = number(z)?;
    Some((first, second, third))
}
