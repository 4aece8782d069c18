//! The sizes of numbers (MQL5 Reference, MathAbs).
ghost use Rattle.std.specs.Prelude.{◌≡◌, ◌<◌, ◌^◌, unsigned_abs};
ghost use Rattle.fx8.specs.Integers.{wrapped};
ghost use Rattle.fx8.specs.Doubles.{double};
ghost use Rattle.mql_meaning.specs.MathFunctions.{size_of};

use crate::doubles::double;
use fx8::{Fix8, FixFault, IntKind, wrap};

/// The size of a number that has one in 128 bits with a sign.
fn size_of(x: i128) -> i128
    requires { unsigned_abs x < 2 ^ 127 }
    ensures { result ≡ size_of x }
{
    if x < 0 { -x } else { x }
}

/// The size of a number of an integer kind, taken into the kind: of the least number of a kind it is that
/// number again.
#[tactic(auto, using(crate::proofs::Sizes::least_alike, crate::proofs::Sizes::has_size))]
pub fn size_in(kind: IntKind, x: i128) -> i128
    ensures { result ≡ wrapped kind (size_of x) }
{
    if x == i128::MIN {
        return wrap(kind, x);
    }
    wrap(kind, size_of(x))
}

/// The size of a double; `Overflow` exactly for the least double.
pub fn size_of_double(x: Fix8) -> Result<Fix8, FixFault>
    ensures { result ≡ double (size_of x) }
{
    double(x.units().unsigned_abs() as i128)
}
