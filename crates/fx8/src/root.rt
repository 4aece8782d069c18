//! Square roots of whole numbers.
ghost use Rattle.std.specs.Prelude.{◌≡◌, ◌<◌, ◌≤◌, ◌^◌};
ghost use Rattle.fx8.specs.Doubles.{IsRoot};

/// The greatest whole number whose square is at most `n`.
#[tactic(auto, using(crate::proofs::Roots::root_found, crate::proofs::Roots::square_small))]
pub(crate) fn root(n: u128) -> u64
    requires { n < 2 ^ 92 }
    ensures value { IsRoot n result }
    ensures at_most { result < 2 ^ 46 }
{
    let mut low = 0u64;
    let mut above = 0x4000_0000_0000u64;
    while above - low > 1 {
        let middle = low + (above - low) / 2;
        if middle as u128 * middle as u128 <= n {
            low = middle;
        } else {
            above = middle;
        }
    }
    low
}
