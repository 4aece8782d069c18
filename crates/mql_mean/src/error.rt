//! Errors that end a run.
ghost use Rattle.std.specs.Prelude.{◌≡◌};
ghost use Rattle.mql_mean.specs.Errors.{error_number};

/// Why a run ends with an error.
#[derive(Clone, Copy, Debug, PartialEq, Eq)]
pub enum ErrorKind {
    ZeroDivide,
    ArrayRange,
    InvalidPointer,
    StackOverflow,
    FixedOverflow,
    CellsExhausted,
    PureCall,
    BadCast,
    PrintsExhausted,
    DealsExhausted,
    RequestsExhausted,
    MathDomain,
}

impl ErrorKind {
    /// The number of the error, from 1 to 12 in the order of the list.
    pub fn number(self) -> u8
        ensures { result ≡ error_number self }
    {
        match self {
            ErrorKind::ZeroDivide => 1,
            ErrorKind::ArrayRange => 2,
            ErrorKind::InvalidPointer => 3,
            ErrorKind::StackOverflow => 4,
            ErrorKind::FixedOverflow => 5,
            ErrorKind::CellsExhausted => 6,
            ErrorKind::PureCall => 7,
            ErrorKind::BadCast => 8,
            ErrorKind::PrintsExhausted => 9,
            ErrorKind::DealsExhausted => 10,
            ErrorKind::RequestsExhausted => 11,
            ErrorKind::MathDomain => 12,
        }
    }
}

/// An error that ended a run.
#[derive(Clone, Copy, Debug, PartialEq, Eq)]
pub struct RunError {
    pub kind: ErrorKind,
    /// The line of the innermost statement in force.
    pub line: u32,
}
