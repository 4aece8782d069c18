//! Quotients of numbers from 0 on.
ghost use Rattle.std.specs.Prelude.{◌≡◌, ◌<◌, ◌≤◌, ◌*◌, ◌^◌, ℕ};
ghost use Rattle.fx8.specs.Rounding.{nearest};
ghost use Rattle.market_types.specs.Ordered.{greatest_price};

use fx8::rounded;

/// The quotient, rounded half away from zero.
#[tactic(auto, unfolding(fx8::specs::Rounding::rounded), using(crate::proofs::Nearest::nearest_most))]
pub(crate) fn quotient(total: u128, count: u128) -> u128
    requires divisor { 0 < count }
    requires small { total < 2 ^ 127 }
    requires room { count < 2 ^ 127 }
    ensures value { result ≡ nearest total count }
    ensures most { (m : ℕ) → total ≤ m * count → result ≤ m }
{
    rounded(total as i128, count as i128).unsigned_abs()
}
