//! Rests, powers and roots of doubles (MQL5 Reference, MathMod, MathPow, MathSqrt).
ghost use Rattle.std.specs.Prelude.{◌≡◌, ◌≤◌, ◌/◌, ◌==◌, ◌%◌, ◌&&◌, nat_le, int_rem, unsigned_abs, pos, false};
ghost use Rattle.fx8.specs.Integers.{is_zero};
ghost use Rattle.mql_meaning.specs.Changes.{either};
ghost use Rattle.mql_meaning.specs.MathFunctions.{one, rest_of, multiplied, inverse_if, power, square_root};
ghost use Rattle.mql_meaning.specs.declared.store.Store.{Store};
ghost use Rattle.native_math.specs.Outcomes.{outcome, power_or_inverse};

use crate::errors::error_of;
use fx8::{Fix8, FixFault};
use mql_mean::ErrorKind;

/// What is left of so many units by others, with the sign of the first.
#[tactic(auto, using(crate::proofs::Sizes::no_rest))]
fn rest_in_units(x: i64, y: i64) -> i64
    requires { is_zero y ≡ false }
    ensures { result ≡ int_rem x y }
{
    if y == -1 {
        return 0;
    }
    x % y
}

/// What is left of a double when another one is taken from it as often as it goes in, with the sign of the
/// first; `ZeroDivide` exactly where the other is 0 (MQL5 Reference, MathMod).
pub fn rest_of(x: Fix8, y: Fix8) -> Result<Fix8, FixFault>
    ensures { result ≡ rest_of x y }
{
    if y.units() == 0 {
        return Err(FixFault::ZeroDivide);
    }
    Ok(Fix8::of_units(rest_in_units(x.units(), y.units())))
}

/// The double 1.
fn double_one() -> Fix8
    ensures { result ≡ pos one }
{
    Fix8::of_units(100_000_000)
}

/// A product that is multiplied by `x` so many times, rounded each time; `Overflow` exactly where one of them
/// is no double.
fn multiplied(times: u64, x: Fix8, begun: Fix8) -> Result<Fix8, FixFault>
    ensures { result ≡ multiplied times x begun }
{
    let mut product = begun;
    let mut left = times;
    while left > 0 {
        product = product.mul(x)?;
        left -= 1;
    }
    Ok(product)
}

/// 1 divided by the number where a test holds.
fn inverse_if(test: bool, z: Fix8) -> Result<Fix8, FixFault>
    ensures { result ≡ inverse_if test z }
{
    if test { double_one().div(z) } else { Ok(z) }
}

/// Whether a power with the exponent is defined: a whole double from -256 to 256.
fn is_exponent(y: Fix8) -> bool
    ensures { result ≡ (unsigned_abs y % one == 0 && nat_le (unsigned_abs y / one) 256) }
{
    let size = y.units().unsigned_abs();
    size % 100_000_000 == 0 && size / 100_000_000 <= 256
}

/// The product of so many factors `x`, and 1 divided by it where a test holds.
fn power_or_inverse(times: u64, x: Fix8, inverse: bool) -> Result<Fix8, FixFault>
    ensures { result ≡ power_or_inverse times x inverse }
{
    let product = multiplied(times, x, double_one())?;
    inverse_if(inverse, product)
}

/// A double to the power of a whole double from -256 to 256, each product rounded: `MathDomain` at any other
/// exponent, `FixedOverflow` exactly where a product or the quotient is no double, `ZeroDivide` exactly where
/// 1 is divided by 0 (MQL5 Reference, MathPow).
#[tactic(auto, using(crate::proofs::PowerSteps::power_is, crate::proofs::PowerSteps::power_is_not))]
pub fn power(x: Fix8, y: Fix8) -> Result<Fix8, ErrorKind>
    ensures { (store : Store) → power x y store ≡ outcome result store }
{
    if !is_exponent(y) {
        return Err(ErrorKind::MathDomain);
    }
    let times = y.units().unsigned_abs() / 100_000_000;
    let inverse = y.units() < 0;
    match power_or_inverse(times, x, inverse) {
        Ok(z) => Ok(z),
        Err(fault) => Err(error_of(fault)),
    }
}

/// The square root of so many units; `MathDomain` exactly below 0.
#[tactic(auto, using(crate::proofs::Roots::root_none))]
fn root_of(units: i64) -> Result<Fix8, ErrorKind>
    ensures { (store : Store) → square_root units store ≡ outcome result store }
{
    match Fix8::of_units(units).sqrt_floor() {
        Some(root) => Ok(root),
        None => Err(ErrorKind::MathDomain),
    }
}

/// The square root, rounded down to units of 10^-8; `MathDomain` exactly below 0 (MQL5 Reference, MathSqrt).
pub fn square_root(x: Fix8) -> Result<Fix8, ErrorKind>
    ensures { (store : Store) → square_root x store ≡ outcome result store }
{
    root_of(x.units())
}
