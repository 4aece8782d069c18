//! Doubles rounded (MQL5 Reference, MathFloor, MathCeil, MathRound; NormalizeDouble).
ghost use Rattle.std.specs.Prelude.{◌≡◌, ◌≤◌};
ghost use Rattle.fx8.specs.Doubles.{normalized};
ghost use Rattle.mql_meaning.specs.MathFunctions.{floor_of, ceil_of};
ghost use Rattle.mql_meaning.specs.StringFunctions.{decimals_of};

use crate::doubles::{double, floor_units, negative, units_of};
use fx8::{Fix8, FixFault};

/// The greatest whole double that is not above the number; `Overflow` exactly where there is none (MQL5
/// Reference, MathFloor).
pub fn floor_of(x: Fix8) -> Result<Fix8, FixFault>
    ensures { result ≡ floor_of x }
{
    double(floor_units(units_of(x)))
}

/// The least whole double that is not below the number; `Overflow` exactly where there is none (MQL5
/// Reference, MathCeil).
pub fn ceil_of(x: Fix8) -> Result<Fix8, FixFault>
    ensures { result ≡ ceil_of x }
{
    double(negative(floor_units(negative(units_of(x)))))
}

/// The number rounded to a whole double, half away from zero; `Overflow` exactly where that is no double (MQL5
/// Reference, MathRound).
pub fn round(x: Fix8) -> Result<Fix8, FixFault>
    ensures { result ≡ normalized 0 x }
{
    x.normalize(0)
}

/// The number of decimals that a number stands for: none below 0, 8 above 8.
pub fn decimals_of(digits: i128) -> u8
    ensures value { result ≡ decimals_of digits }
    ensures at_most { result ≤ 8 }
{
    if digits < 0 {
        return 0;
    }
    if digits <= 8 { digits as u8 } else { 8 }
}

/// The number rounded to so many decimals, half away from zero: none below 0, 8 above 8; `Overflow` exactly
/// where that is no double (MQL5 Reference, NormalizeDouble).
pub fn normalize(x: Fix8, digits: i128) -> Result<Fix8, FixFault>
    ensures { result ≡ normalized (decimals_of digits) x }
{
    x.normalize(decimals_of(digits))
}
