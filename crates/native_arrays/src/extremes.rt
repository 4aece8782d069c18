//! The greatest and the least of numbers (MQL5 Reference, ArrayMaximum, ArrayMinimum).
ghost use Rattle.std.specs.Prelude.{◌≡◌, ◌+◌, ◌<◌, ◌^◌, length};
ghost use Rattle.mql_meaning.specs.ArrayFunctions.{best};
ghost use Rattle.native_arrays.specs.Extremes.{better};

/// What is looked for among numbers.
#[derive(Clone, Copy, Debug, PartialEq, Eq)]
pub enum Extreme {
    /// The greatest.
    Greatest,
    /// The least.
    Least,
}

/// Whether a number betters another one.
fn better(extreme: Extreme, number: i128, other: i128) -> bool
    ensures { result ≡ better extreme number other }
{
    match extreme {
        Extreme::Greatest => other < number,
        Extreme::Least => number < other,
    }
}

/// The place of the first number that no other one betters, the first number being at a place that is given;
/// `None` exactly where there is no number.
#[tactic(auto, using(crate::proofs::Bettered::kept, crate::proofs::Bettered::changed, crate::proofs::Bettered::ended))]
pub fn best(extreme: Extreme, start: u64, numbers: &[i128]) -> Option<u64>
    requires { start + length numbers.now < 2 ^ 64 }
    ensures { result ≡ best (better extreme) start numbers.now }
{
    let [first, others @ ..] = numbers else {
        return None;
    };
    let mut at = start;
    let mut place = start;
    let mut number = *first;
    for other in others {
        place += 1;
        if !better(extreme, *other, number) {
            continue;
        }
        at = place;
        number = *other;
    }
    Some(at)
}
