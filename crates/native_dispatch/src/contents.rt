//! The chapters of the native functions that ask no world.
ghost use Rattle.std.specs.Prelude.{◌≡◌};
ghost use Rattle.native_dispatch.specs.Chapters.{chapter};

use natives::Native;

/// A chapter of native functions that ask no world.
#[derive(Clone, Copy, Debug, PartialEq, Eq)]
pub enum Chapter {
    /// String Functions.
    Strings,
    /// Conversion Functions.
    Texts,
    /// Array Functions, and ZeroMemory.
    Arrays,
    /// Math Functions, and NormalizeDouble.
    Numbers,
    /// Date and Time; Checkup; Comment.
    Times,
    /// No chapter: a native function that asks the world, or none that computes.
    Elsewhere,
}

/// The chapter of a native function.
pub fn chapter_of(native: Native) -> Chapter
    ensures { result ≡ chapter native }
{
    match native {
        Native::StringLen
        | Native::StringSubstr
        | Native::StringFind
        | Native::StringReplace
        | Native::StringTrimLeft
        | Native::StringTrimRight
        | Native::StringToLower
        | Native::StringToUpper
        | Native::StringGetCharacter
        | Native::StringSetCharacter
        | Native::StringSplit
        | Native::StringCompare => Chapter::Strings,
        Native::StringToInteger
        | Native::StringToDouble
        | Native::IntegerToString
        | Native::DoubleToString
        | Native::TimeToString
        | Native::CharToString
        | Native::ShortToString
        | Native::StringFormat => Chapter::Texts,
        Native::ArraySize
        | Native::ArrayRange
        | Native::ArrayResize
        | Native::ArrayFree
        | Native::ArrayInitialize
        | Native::ArrayCopy
        | Native::ArraySetAsSeries
        | Native::ArrayGetAsSeries
        | Native::ArraySort
        | Native::ArrayMaximum
        | Native::ArrayMinimum
        | Native::ArrayIsDynamic
        | Native::ZeroMemory => Chapter::Arrays,
        Native::MathAbs
        | Native::MathMax
        | Native::MathMin
        | Native::MathFloor
        | Native::MathCeil
        | Native::MathRound
        | Native::MathSqrt
        | Native::MathMod
        | Native::MathPow
        | Native::MathIsValidNumber
        | Native::NormalizeDouble => Chapter::Numbers,
        Native::Comment | Native::TimeToStruct | Native::StructToTime | Native::IsStopped =>
            Chapter::Times,
        _ => Chapter::Elsewhere,
    }
}
