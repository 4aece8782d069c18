//! How many arguments there are.
ghost use Rattle.std.specs.Prelude.{◌≡◌, Some, None, MatchOption};
ghost use Rattle.native_arguments.specs.Arguments.{all_shown, itself, read_1, read_2, read_3, shown};

use crate::argument::Argument;

/// The one argument; `None` exactly where there is not one.
#[tactic(auto, using(crate::proofs::Counting::one_is, crate::proofs::Counting::one_is_not))]
pub(crate) fn one<'a>(arguments: &[Argument<'a>]) -> Option<Argument<'a>>
    ensures { MatchOption result (read_1 itself (all_shown arguments.now) ≡ None)
        (λ x. read_1 itself (all_shown arguments.now) ≡ Some (shown x)) }
{
    match arguments {
        [x] => Some(*x),
        _ => None,
    }
}

/// The two arguments; `None` exactly where there are not two.
#[tactic(auto, using(crate::proofs::Counting::two_are, crate::proofs::Counting::two_are_not))]
pub(crate) fn two<'a>(arguments: &[Argument<'a>]) -> Option<(Argument<'a>, Argument<'a>)>
    ensures { MatchOption result (read_2 itself itself (all_shown arguments.now) ≡ None)
        (λ t. read_2 itself itself (all_shown arguments.now) ≡ Some (shown t.0, shown t.1)) }
{
    match arguments {
        [x, y] => Some((*x, *y)),
        _ => None,
    }
}

/// The three arguments; `None` exactly where there are not three.
#[tactic(auto, using(crate::proofs::Counting::three_are, crate::proofs::Counting::three_are_not))]
pub(crate) fn three<'a>(
    arguments: &[Argument<'a>],
) -> Option<(Argument<'a>, Argument<'a>, Argument<'a>)>
    ensures { MatchOption result (read_3 itself itself itself (all_shown arguments.now) ≡ None)
        (λ t. read_3 itself itself itself (all_shown arguments.now)
        ≡ Some (shown t.0, shown t.1, shown t.2)) }
{
    match arguments {
        [x, y, z] => Some((*x, *y, *z)),
        _ => None,
    }
}
