//! A change of the prices as a ticks file tells it.

use fx8::{Fix8, ItemList};

/// The prices after a change: a row of a ticks file (MQL5 Reference, structure MqlTick; MetaTrader 5 Help,
/// export of ticks).
#[derive(Clone, Copy, Debug, PartialEq, Eq)]
pub struct Tick {
    /// When the prices changed, in milliseconds since 1970-01-01 00:00.
    pub time_ms: i64,
    /// The price at which one sells.
    pub bid: Fix8,
    /// The price at which one buys.
    pub ask: Fix8,
    /// The price of the last deal, 0 where it is not known.
    pub last: Fix8,
    /// The volume of the last deal.
    pub volume: Fix8,
    /// Which prices changed: 2 for Bid, 4 for Ask, 8 for the last price, 16 for the volume, 32 for a buy and
    /// 64 for a sell.
    pub flags: u32,
}

/// Ticks, in the order of their times.
pub type TickList = ItemList<Tick>;
