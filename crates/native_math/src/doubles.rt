//! Doubles as their units, and doubles of so many units.
ghost use Rattle.std.specs.Prelude.{◌≡◌, ◌≤◌, ◌^◌, ◌*ℤ◌, pos, neg_ℤ, unsigned_abs};
ghost use Rattle.std.specs.Int.{int_div_euclid};
ghost use Rattle.fx8.specs.Doubles.{double};
ghost use Rattle.mql_meaning.specs.MathFunctions.{one};

use fx8::{Fix8, FixFault};

/// How many units of 10^-8 a double is.
pub(crate) fn units_of(x: Fix8) -> i128
    ensures value { result ≡ x }
    ensures at_most { unsigned_abs result ≤ 2 ^ 63 }
{
    x.units() as i128
}

/// The same number with the other sign.
pub(crate) fn negative(units: i128) -> i128
    requires { unsigned_abs units ≤ 2 ^ 126 }
    ensures value { result ≡ neg_ℤ units }
    ensures at_most { unsigned_abs result ≡ unsigned_abs units }
{
    -units
}

/// The greatest whole number that is not above so many units.
#[tactic(auto, using(crate::proofs::Sizes::quotient_small))]
fn whole_below(units: i128) -> i128
    requires { unsigned_abs units ≤ 2 ^ 63 }
    ensures value { result ≡ int_div_euclid units (pos one) }
    ensures at_most { unsigned_abs result ≤ 2 ^ 63 }
{
    units.div_euclid(100_000_000)
}

/// How many units of 10^-8 a whole number is.
fn in_units(number: i128) -> i128
    requires { unsigned_abs number ≤ 2 ^ 63 }
    ensures value { result ≡ number *ℤ pos one }
    ensures at_most { unsigned_abs result ≤ 2 ^ 126 }
{
    number * 100_000_000
}

/// The units of the greatest whole double that is not above so many units.
pub(crate) fn floor_units(units: i128) -> i128
    requires { unsigned_abs units ≤ 2 ^ 63 }
    ensures value { result ≡ int_div_euclid units (pos one) *ℤ pos one }
    ensures at_most { unsigned_abs result ≤ 2 ^ 126 }
{
    in_units(whole_below(units))
}

/// The double of so many units; `Overflow` exactly where 64 bits do not hold them.
#[tactic(auto, unfolding(fx8::specs::Doubles::fits_double))]
pub(crate) fn double(units: i128) -> Result<Fix8, FixFault>
    ensures { result ≡ double units }
{
    if -0x8000_0000_0000_0000 <= units && units < 0x8000_0000_0000_0000 {
        Ok(Fix8::of_units(units as i64))
    } else {
        Err(FixFault::Overflow)
    }
}
