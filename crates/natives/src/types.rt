//! The types of parameters, results, fields and constants.
use fx8::{Fix8, IntKind};

/// A simple type (MQL5 Reference, Language Basics, Data Types).
#[derive(Clone, Copy, Debug, PartialEq, Eq)]
pub enum SimpleType {
    /// An integer type, `bool`, `datetime` or `color`.
    Integer(IntKind),
    /// `double`
    Double,
    /// `string`
    String,
}

/// A supplied structure; its fields are in `Structure::fields`.
#[derive(Clone, Copy, Debug, PartialEq, Eq)]
pub enum Structure {
    /// `MqlTradeRequest`
    MqlTradeRequest,
    /// `MqlTradeResult`
    MqlTradeResult,
    /// `MqlTick`
    MqlTick,
    /// `MqlRates`
    MqlRates,
    /// `MqlDateTime`
    MqlDateTime,
}

/// The value of a constant.
#[derive(Clone, Copy, Debug, PartialEq, Eq)]
pub enum ConstantValue {
    /// A number of an integer type.
    Integer(IntKind, i128),
    /// A `double`.
    Double(Fix8),
}
