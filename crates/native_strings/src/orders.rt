//! Which of two texts comes first (MQL5 Reference, StringCompare).
ghost use Rattle.std.specs.Prelude.{◌≡◌, map};
ghost use Rattle.mql_meaning.specs.Operators.{order};
ghost use Rattle.mql_meaning.specs.StringFunctions.{small};

use crate::cases::small;

/// Which of two texts comes first by their units: -1 where the first does, 0 where they are equal, else 1.
#[tactic(auto, using(crate::proofs::Comparing::same_first, crate::proofs::Comparing::less_first, crate::proofs::Comparing::greater_first, crate::proofs::Comparing::second_ends, crate::proofs::Comparing::first_ends, crate::proofs::Comparing::both_end))]
pub fn order(first: &[u16], second: &[u16]) -> i8
    ensures { result ≡ order first.now second.now }
{
    let mut left = first;
    let mut right = second;
    while let [unit, units @ ..] = left {
        let [other, others @ ..] = right else {
            return 1;
        };
        if *unit < *other {
            return -1;
        }
        if *other < *unit {
            return 1;
        }
        left = units;
        right = others;
    }
    if right.is_empty() { 0 } else { -1 }
}

/// Which of two texts comes first, capitals counting as small letters.
#[tactic(auto, using(crate::proofs::Comparing::same_small, crate::proofs::Comparing::less_small, crate::proofs::Comparing::greater_small, crate::proofs::Comparing::second_small_ends, crate::proofs::Comparing::first_small_ends, crate::proofs::Comparing::both_small_end))]
pub fn order_without_case(first: &[u16], second: &[u16]) -> i8
    ensures { result ≡ order (map small first.now) (map small second.now) }
{
    let mut left = first;
    let mut right = second;
    while let [unit, units @ ..] = left {
        let [other, others @ ..] = right else {
            return 1;
        };
        if small(*unit) < small(*other) {
            return -1;
        }
        if small(*other) < small(*unit) {
            return 1;
        }
        left = units;
        right = others;
    }
    if right.is_empty() { 0 } else { -1 }
}
