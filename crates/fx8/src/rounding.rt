//! Quotients of whole numbers, rounded.
ghost use Rattle.std.specs.Prelude.{◌≡◌, ◌<◌, ◌≤◌, ◌^◌, pos, unsigned_abs, false};
ghost use Rattle.fx8.specs.Integers.{is_zero};
ghost use Rattle.fx8.specs.Rounding.{nearest, IsNearest, signed, is_below_zero, signs_differ, rounded};

/// The whole number nearest to `n / q`, the greater one at a tie.
fn nearest(n: u128, q: u128) -> u128
    requires divisor { 0 < q }
    requires room { q ≤ 2 ^ 127 }
    requires small { n < 2 ^ 127 }
    ensures value { result ≡ nearest n q }
    ensures near { IsNearest n q result }
    ensures at_most { result ≤ n }
{
    let whole = n / q;
    let rest = n % q;
    if rest * 2 >= q { whole + 1 } else { whole }
}

/// Whether a number is below zero.
pub(crate) fn is_below_zero(z: i128) -> bool
    ensures { result ≡ is_below_zero z }
{
    z < 0
}

/// So many, or so many below zero.
pub(crate) fn signed(below_zero: bool, size: u128) -> i128
    requires { size < 2 ^ 127 }
    ensures value { result ≡ signed below_zero size }
    ensures size { unsigned_abs result ≡ size }
{
    if below_zero {
        -(size as i128)
    } else {
        size as i128
    }
}

/// Whether two numbers have different signs.
fn signs_differ(p: i128, q: i128) -> bool
    ensures { result ≡ signs_differ p q }
{
    if is_below_zero(q) {
        !is_below_zero(p)
    } else {
        is_below_zero(p)
    }
}

/// The whole number nearest to `p / q`, the one farther from zero at a tie. `p` is not the least number of
/// 128 bits, and `q` is not 0.
#[tactic(auto, unfolding(crate::specs::Rounding::rounded))]
pub fn rounded(p: i128, q: i128) -> i128
    requires divisor { is_zero q ≡ false }
    requires small { unsigned_abs p < 2 ^ 127 }
    ensures value { result ≡ rounded p q }
    ensures near { IsNearest (unsigned_abs p) (unsigned_abs q) (unsigned_abs result) }
    ensures at_most { unsigned_abs result ≤ unsigned_abs p }
{
    let size = nearest(p.unsigned_abs(), q.unsigned_abs());
    signed(signs_differ(p, q), size)
}
