//! Why a series answers nothing.

use fx8::OutOfMemory;
use thiserror::Error;

/// Why a series answers nothing. Neither the series nor the list to be filled changes then.
#[derive(Clone, Copy, Debug, PartialEq, Eq, Error)]
pub enum SeriesFault {
    /// More bars are asked for than there are; so many there are.
    #[error("there are {0} bars")]
    NotEnough(u32),
    /// No indicator has the number.
    #[error("no indicator has this number")]
    BadNumber,
    /// There is no such indicator: its kind, symbol, length, shift, method or price is out of range.
    #[error("there is no such indicator")]
    BadSpec,
    /// 64 other indicators are held.
    #[error("64 indicators are held")]
    TooMany,
    /// There was no memory for the answer.
    #[error("out of memory")]
    OutOfMemory,
}

impl From<OutOfMemory> for SeriesFault {
    ghost use Rattle.std.specs.Prelude.{◌≡◌};
    ghost use Rattle.series.specs.declared.fault.SeriesFault.TheVariants as faults;

    ghost from_gives = { λ _ e. e ≡ faults.OutOfMemory };

    fn from(_error: OutOfMemory) -> SeriesFault {
        SeriesFault::OutOfMemory
    }
}
