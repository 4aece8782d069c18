//! What a test without an account is asked.
ghost use Rattle.std.specs.Prelude.{◌≡◌};
ghost use Rattle.tester_world.specs.Asked.{asked_by};

use natives::Native;

/// A call of the world of a test without an account.
#[derive(Clone, Copy)]
pub enum Asked {
    Print,
    PrintFormat,
    MathRand,
    MathSrand,
    /// `TimeCurrent`, `TimeLocal` and `TimeGMT`.
    Time,
    ExpertRemove,
    GetLastError,
    ResetLastError,
    /// The last error is set, where an argument was out of range.
    SetLastError,
    Symbol,
    Period,
    UninitializeReason,
    MqlInfoInteger,
    /// What this world does not have: what asks an account or a market.
    Missing,
}

/// What a call of a native function asks; without one the last error is set.
pub(crate) fn asked_by(native: Option<Native>) -> Asked
    ensures { result ≡ asked_by native }
{
    let Some(native) = native else {
        return Asked::SetLastError;
    };
    match native {
        Native::Print => Asked::Print,
        Native::PrintFormat => Asked::PrintFormat,
        Native::MathRand => Asked::MathRand,
        Native::MathSrand => Asked::MathSrand,
        Native::TimeCurrent | Native::TimeLocal | Native::TimeGMT => Asked::Time,
        Native::ExpertRemove => Asked::ExpertRemove,
        Native::GetLastError => Asked::GetLastError,
        Native::ResetLastError => Asked::ResetLastError,
        Native::Symbol => Asked::Symbol,
        Native::Period => Asked::Period,
        Native::UninitializeReason => Asked::UninitializeReason,
        Native::MQLInfoInteger => Asked::MqlInfoInteger,
        _ => Asked::Missing,
    }
}
