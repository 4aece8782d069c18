//! Parts of a text.
ghost use Rattle.std.specs.Prelude.{◌≡◌, ◌≤◌, length, true, drop};
ghost use Rattle.mql_meaning.specs.StringFunctions.{begins, find_from};

use crate::counts::behind;

/// Whether a text begins with a part.
#[tactic(auto, using(crate::proofs::Finding::same_unit, crate::proofs::Finding::other_unit, crate::proofs::Finding::text_ends, crate::proofs::Finding::part_ends, crate::proofs::Finding::part_fits))]
pub fn begins(part: &[u16], text: &[u16]) -> bool
    ensures value { result ≡ begins part.now text.now }
    ensures fits { result ≡ true → length part.now ≤ length text.now }
{
    let mut left = part;
    let mut rest = text;
    while let [unit, units @ ..] = left {
        let [other, others @ ..] = rest else {
            return false;
        };
        if *unit != *other {
            return false;
        }
        left = units;
        rest = others;
    }
    true
}

/// The first place from `start` on at which a text has a part; `None` exactly where there is none (MQL5
/// Reference, StringFind).
#[tactic(auto, using(crate::proofs::Finding::found_here, crate::proofs::Finding::found_later, crate::proofs::Finding::found_at_end, crate::proofs::Finding::found_nowhere))]
pub fn find(part: &[u16], text: &[u16], start: u64) -> Option<u64>
    ensures { result ≡ find_from start part.now (drop start text.now) }
{
    let mut place = start;
    while place < text.len() as u64 {
        if begins(part, behind(text, place)) {
            return Some(place);
        }
        place += 1;
    }
    if begins(part, &[]) { Some(place) } else { None }
}
