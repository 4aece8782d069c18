//! An indicator that a series holds.

use indicators::{Indicator, IndicatorSpec};

/// An indicator that a series holds.
#[derive(Clone, Copy, Debug)]
pub(crate) struct Held {
    /// As it was asked for.
    pub(crate) spec: IndicatorSpec,
    /// The indicator that was meant.
    pub(crate) indicator: Indicator,
    /// How many bars come before its bar 0.
    pub(crate) first: u64,
}
