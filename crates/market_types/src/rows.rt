//! The rows of a symbol.

use crate::{BarList, TickList};

/// The rows of a symbol's price file.
#[derive(Debug, Drop)]
pub enum Rows {
    /// Bars of one minute, for the modes `Ohlc` and `Opening`.
    Bars(BarList),
    /// Ticks, for the mode `Ticks`.
    Ticks(TickList),
}
