//! The greater and the lesser of two numbers.
ghost use Rattle.std.specs.Prelude.{◌≡◌};
ghost use Rattle.mql_meaning.specs.MathFunctions.{greater, lesser};

use fx8::Fix8;

/// The greater of two numbers of one integer kind (MQL5 Reference, MathMax).
pub fn greater(x: i128, y: i128) -> i128
    ensures { result ≡ greater x y }
{
    if x < y { y } else { x }
}

/// The lesser of two numbers of one integer kind (MQL5 Reference, MathMin).
pub fn lesser(x: i128, y: i128) -> i128
    ensures { result ≡ lesser x y }
{
    if y < x { y } else { x }
}

/// The greater of two doubles (MQL5 Reference, MathMax).
pub fn greater_double(x: Fix8, y: Fix8) -> Fix8
    ensures { result ≡ greater x y }
{
    if x.units() < y.units() { y } else { x }
}

/// The lesser of two doubles (MQL5 Reference, MathMin).
pub fn lesser_double(x: Fix8, y: Fix8) -> Fix8
    ensures { result ≡ lesser x y }
{
    if y.units() < x.units() { y } else { x }
}
