//! What native functions take and give.
ghost use Rattle.std.specs.Prelude.{◌≡◌};
ghost use Rattle.natives.specs.Signatures.{error_number, is_rest, may_lack};

use crate::types::{SimpleType, Structure};

/// What the elements of an array are.
#[derive(Clone, Copy, Debug, PartialEq, Eq)]
pub enum Elements {
    /// Of any type.
    Any,
    /// Of any type of numbers.
    Numbers,
    /// Of the type of the array before it, or numbers where those of the array before it are numbers.
    Matching,
    /// Of this type.
    Simple(SimpleType),
    /// Structures of this type.
    Structures(Structure),
}

/// What a parameter takes.
#[derive(Clone, Copy, Debug, PartialEq, Eq)]
pub enum ParameterKind {
    /// A value that is taken into this type.
    Simple(SimpleType),
    /// A number, which is taken into the type of the elements of the array before it.
    Number,
    /// A number; where all arguments are integers they are taken into their common type, else into `double`.
    Common,
    /// A value of an enumeration of the source.
    Enumeration,
    /// An object of a class.
    Object,
    /// A pointer to an object.
    Pointer,
    /// A structure of this type.
    Structure(Structure),
    /// An array.
    Array(Elements),
    /// A variable of any type but a class.
    Variable,
    /// Any number of numbers, values of enumerations and strings.
    Rest,
}

impl ParameterKind {
    /// Whether it takes any number of values.
    pub fn is_rest(self) -> bool
        ensures { result ≡ is_rest self }
    {
        match self {
            ParameterKind::Rest => true,
            _ => false,
        }
    }
}

/// How an argument is handed over.
#[derive(Clone, Copy, Debug, PartialEq, Eq)]
pub enum Passing {
    /// The function reads it.
    Value,
    /// The function may change what is lent: a place of the parameter's own type that is not constant.
    Reference,
}

/// A parameter of a native function.
#[derive(Clone, Copy, Debug, PartialEq, Eq)]
pub struct Parameter {
    /// What it takes.
    pub kind: ParameterKind,
    /// How the argument is handed over.
    pub passing: Passing,
    /// The number that stands for an argument that is left out, in the parameter's type; 1 is `true`.
    pub default: Option<i32>,
}

impl Parameter {
    /// Whether a call may have no argument for it.
    pub fn may_lack(&self) -> bool
        ensures { result ≡ may_lack self.now }
    {
        self.kind.is_rest() || self.default.is_some()
    }
}

/// The type of what a native function gives.
#[derive(Clone, Copy, Debug, PartialEq, Eq)]
pub enum ResultType {
    /// Nothing.
    Void,
    /// A value of this type.
    Simple(SimpleType),
    /// Of the type into which the arguments were taken (`ParameterKind::Common`).
    Common,
    /// A pointer to an object of the argument's class.
    Pointer,
}

/// Where a call of a native function is answered.
#[derive(Clone, Copy, Debug, PartialEq, Eq)]
pub enum Evaluation {
    /// By the values of its arguments alone.
    Pure,
    /// By types, series flags and objects: by the program's own store.
    Store,
    /// When the source is compiled.
    Compiler,
    /// By the world: clock, prices, account, generator of `MathRand`, prints, the last error and the run
    /// itself.
    World,
}

/// What a native function that fails sets the last error to (MQL5 Reference, Codes of Errors and Warnings,
/// Runtime Errors).
#[derive(Clone, Copy, Debug, PartialEq, Eq)]
pub enum LastError {
    /// An argument is out of range.
    InvalidParameter,
    /// There is no symbol of this name.
    UnknownSymbol,
    /// There are too few bars.
    HistoryNotFound,
    /// No position is selected, or it has gone.
    PositionNotFound,
    /// No order is selected, or it has gone.
    OrderNotFound,
    /// No deal is selected, or there is none of this ticket.
    DealNotFound,
    /// The request is refused.
    TradeSendFailed,
    /// There is no indicator of this number.
    WrongIndicatorHandle,
}

impl LastError {
    /// The number that `GetLastError` gives.
    #[tactic(auto, unfolding(crate::specs::Signatures::error_number))]
    pub fn number(self) -> u16
        ensures { result ≡ error_number self }
    {
        match self {
            LastError::InvalidParameter => 4003,
            LastError::UnknownSymbol => 4301,
            LastError::HistoryNotFound => 4401,
            LastError::PositionNotFound => 4753,
            LastError::OrderNotFound => 4754,
            LastError::DealNotFound => 4755,
            LastError::TradeSendFailed => 4756,
            LastError::WrongIndicatorHandle => 4807,
        }
    }
}
