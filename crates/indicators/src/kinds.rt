//! The indicators that there are.

/// The price of a bar that an indicator takes (MQL5 Reference, ENUM_APPLIED_PRICE).
#[derive(Clone, Copy, Debug, PartialEq, Eq)]
pub enum AppliedPrice {
    Close,
    Open,
    High,
    Low,
    /// Half the sum of high and low.
    Median,
    /// A third of the sum of high, low and close.
    Typical,
    /// A quarter of the sum of high, low and twice the close.
    Weighted,
}

/// How a moving average weighs its prices (MQL5 Reference, ENUM_MA_METHOD).
#[derive(Clone, Copy, Debug, PartialEq, Eq)]
pub enum Method {
    Simple,
    Exponential,
    Smoothed,
    LinearWeighted,
}

/// A kind of indicator, with what it takes beside its length (MQL5 Reference, Technical Indicators).
#[derive(Clone, Copy, Debug, PartialEq, Eq)]
pub enum Kind {
    /// iMA.
    MovingAverage(Method, AppliedPrice),
    /// iATR.
    AverageTrueRange,
    /// iRSI.
    RelativeStrength(AppliedPrice),
}

/// An indicator.
#[derive(Clone, Copy, Debug, PartialEq, Eq)]
pub struct Indicator {
    pub kind: Kind,
    /// How many bars it averages, 1 to 10,000.
    pub length: u32,
    /// Of how many bars before a bar it tells the value there, 0 to 1,000.
    pub shift: u32,
}

/// Which way a price changes.
#[derive(Clone, Copy)]
pub(crate) enum Way {
    Up,
    Down,
}
