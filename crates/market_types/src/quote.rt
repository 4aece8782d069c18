//! A change of the prices.

use fx8::{Fix8, ItemList};

/// A change of the prices of a symbol (MQL5 Reference, structure MqlTick).
#[derive(Clone, Copy, Debug, PartialEq, Eq)]
pub struct Quote {
    /// The symbol's place in the market, from 0.
    pub symbol: u8,
    /// When the prices changed, in milliseconds since 1970-01-01 00:00.
    pub time_ms: i64,
    /// The price at which one sells.
    pub bid: Fix8,
    /// The price at which one buys.
    pub ask: Fix8,
    /// The price of the last deal, 0 where it is not known.
    pub last: Fix8,
    /// The volume of the last deal.
    pub volume: Fix8,
    /// Which prices changed: 2 for Bid and 4 for Ask.
    pub flags: u32,
    /// Whether the expert sees it; a silent quote feeds the bars alone.
    pub loud: bool,
}

/// Quotes, in the order of their times.
pub type QuoteList = ItemList<Quote>;
