//! A bar of prices.

use fx8::{Fix8, ItemList};

/// The prices of one minute: a row of a bars file (MetaTrader 5 Help, Bars).
#[derive(Clone, Copy, Debug, PartialEq, Eq)]
pub struct Bar {
    /// When the bar opens, in seconds since 1970-01-01 00:00.
    pub time: i64,
    /// The first price, in units of 10^-8.
    pub o: Fix8,
    /// The highest price.
    pub h: Fix8,
    /// The lowest price.
    pub l: Fix8,
    /// The last price.
    pub c: Fix8,
    /// How many price changes the bar has.
    pub tick_volume: u64,
    /// Ask less Bid, in points.
    pub spread: u32,
    /// What was traded.
    pub volume: u64,
}

/// Bars, in the order of their times.
pub type BarList = ItemList<Bar>;
