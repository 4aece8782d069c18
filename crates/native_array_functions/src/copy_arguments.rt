//! The arguments of ArrayCopy.
ghost use Rattle.std.specs.Prelude.{◌≡◌, None, Some, MatchOption};
ghost use Rattle.native_arguments.specs.Arguments.{all_shown};
ghost use Rattle.native_array_functions.specs.Reading.{read_5};
ghost use Rattle.native_array_functions.specs.Copies.{copy_read, five_shown};

use native_arguments::{Argument, cell, number};
use store_places::Seen;

/// The arguments of ArrayCopy.
#[derive(Clone, Copy)]
pub(crate) struct CopyArguments<'a> {
    /// The array that gets elements.
    pub(crate) target: Seen<'a>,
    /// What the elements come from.
    pub(crate) source: Seen<'a>,
    /// The place in the array from which they are put.
    pub(crate) at: i128,
    /// The place of the first element that is taken.
    pub(crate) start: i128,
    /// How many elements are asked for; -1 for all.
    pub(crate) count: i128,
}

/// Five arguments.
#[derive(Clone, Copy)]
struct FiveArguments<'a> {
    first: Argument<'a>,
    second: Argument<'a>,
    third: Argument<'a>,
    fourth: Argument<'a>,
    fifth: Argument<'a>,
}

/// The five arguments; `None` exactly where there are not five.
#[tactic(auto, using(crate::proofs::CopyRead::five_are, crate::proofs::CopyRead::five_are_not))]
fn five<'a>(arguments: &[Argument<'a>]) -> Option<FiveArguments<'a>>
    ensures { MatchOption result (read_5 (all_shown arguments.now) ≡ None)
        (λ t. all_shown arguments.now ≡ five_shown t) }
{
    match arguments {
        [first, second, third, fourth, fifth] => Some(FiveArguments {
            first: *first,
            second: *second,
            third: *third,
            fourth: *fourth,
            fifth: *fifth,
        }),
        _ => None,
    }
}

/// The arguments of ArrayCopy; `None` exactly where they are not these.
#[tactic(auto, using(crate::proofs::CopyRead::read_first, crate::proofs::CopyRead::read_second, crate::proofs::CopyRead::read_third, crate::proofs::CopyRead::read_fourth, crate::proofs::CopyRead::read_fifth, crate::proofs::CopyRead::read_all))]
pub(crate) fn copy_arguments<'a>(arguments: &[Argument<'a>]) -> Option<CopyArguments<'a>>
    ensures { MatchOption result (read_5 (all_shown arguments.now) ≡ None)
        (λ r. read_5 (all_shown arguments.now) ≡ Some (copy_read r)) }
{
    let five = five(arguments)?;
    let target = cell(five.first)?;
    let source = cell(five.second)?;
    let at = number(five.third)?;
    let start = number(five.fourth)?;
    let count = number(five.fifth)?;
    Some(CopyArguments {
        target,
        source,
        at,
        start,
        count,
    })
}
