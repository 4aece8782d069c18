//! The short names of native functions, and which function a name means.
ghost use Rattle.std.specs.Prelude.{◌≡◌, ◌↔◌, ℕ, List, Some};
ghost use Rattle.natives.specs.declared.short_name.ShortName as shorts;
ghost use Rattle.natives.specs.declared.native.Native.{Native as native};
ghost use Rattle.natives.specs.Names.{short_spelling, short_named, native_of_short, named, IsNameOf};
ghost use Rattle.mql_spelling.specs.Spelled.{spelled_among};

use crate::native::{Native, native_named};
use mql_spelling::is_spelled;

/// A second name that a native function has (MQL5 Reference, Math Functions).
#[derive(Clone, Copy, Debug, PartialEq, Eq)]
pub enum ShortName {
    /// `fabs`
    Fabs,
    /// `fmax`
    Fmax,
    /// `fmin`
    Fmin,
    /// `floor`
    Floor,
    /// `ceil`
    Ceil,
    /// `round`
    Round,
    /// `sqrt`
    Sqrt,
    /// `fmod`
    Fmod,
    /// `pow`
    Pow,
    /// `rand`
    Rand,
    /// `srand`
    Srand,
    /// `printf`
    Printf,
}

/// Each of them, in order.
pub const SHORTS: [ShortName; 12] = [
    ShortName::Fabs,
    ShortName::Fmax,
    ShortName::Fmin,
    ShortName::Floor,
    ShortName::Ceil,
    ShortName::Round,
    ShortName::Sqrt,
    ShortName::Fmod,
    ShortName::Pow,
    ShortName::Rand,
    ShortName::Srand,
    ShortName::Printf,
];

impl ShortName {
    /// How it is spelled.
    #[tactic(auto, unfolding(crate::specs::Names::short_spelling))]
    pub fn spelling(self) -> &'static [u8]
        ensures { result.now ≡ short_spelling self }
    {
        match self {
            ShortName::Fabs => b"fabs".as_slice(),
            ShortName::Fmax => b"fmax".as_slice(),
            ShortName::Fmin => b"fmin".as_slice(),
            ShortName::Floor => b"floor".as_slice(),
            ShortName::Ceil => b"ceil".as_slice(),
            ShortName::Round => b"round".as_slice(),
            ShortName::Sqrt => b"sqrt".as_slice(),
            ShortName::Fmod => b"fmod".as_slice(),
            ShortName::Pow => b"pow".as_slice(),
            ShortName::Rand => b"rand".as_slice(),
            ShortName::Srand => b"srand".as_slice(),
            ShortName::Printf => b"printf".as_slice(),
        }
    }

    /// The function that it names.
    pub fn native(self) -> Native
        ensures { result ≡ native_of_short self }
    {
        match self {
            ShortName::Fabs => Native::MathAbs,
            ShortName::Fmax => Native::MathMax,
            ShortName::Fmin => Native::MathMin,
            ShortName::Floor => Native::MathFloor,
            ShortName::Ceil => Native::MathCeil,
            ShortName::Round => Native::MathRound,
            ShortName::Sqrt => Native::MathSqrt,
            ShortName::Fmod => Native::MathMod,
            ShortName::Pow => Native::MathPow,
            ShortName::Rand => Native::MathRand,
            ShortName::Srand => Native::MathSrand,
            ShortName::Printf => Native::PrintFormat,
        }
    }
}

/// The first of some of them that is spelled so.
fn short_among(shorts: &[ShortName], units: &[u16]) -> Option<ShortName>
    ensures { result ≡ spelled_among short_spelling shorts.now units.now }
{
    let mut rest = shorts;
    while let [short, others @ ..] = rest {
        if is_spelled(units, short.spelling()) {
            return Some(*short);
        }
        rest = others;
    }
    None
}

/// The one that is spelled so, if there is one.
#[tactic(auto, unfolding(crate::specs::Names::short_named))]
pub fn short_named(units: &[u16]) -> Option<ShortName>
    ensures { result ≡ short_named units.now }
{
    short_among(&SHORTS, units)
}

/// A text is a short name exactly where it is that name's spelling.
pub fn shorts_by_spelling()
    ensures { (units : List ℕ) (short : shorts.ShortName) → (short_named units ≡ Some short)
        ↔ (units ≡ short_spelling short) }
{}

/// The function that a name means, if there is one: by its full name or a short one.
#[tactic(auto, unfolding(crate::specs::Names::named))]
pub fn named(units: &[u16]) -> Option<Native>
    ensures { result ≡ named units.now }
{
    match native_named(units) {
        Some(native) => Some(native),
        None => match short_named(units) {
            Some(short) => Some(short.native()),
            None => None,
        },
    }
}

/// A text means a function exactly where it is its full name or one of its short ones.
pub fn named_by_spelling()
    ensures { (units : List ℕ) (n : native) → (named units ≡ Some n) ↔ IsNameOf n units }
{}
