//! Pending orders.

use fx8::{Fix8, Text};

/// The kinds of pending orders (MQL5 Reference, ENUM_ORDER_TYPE).
#[derive(Clone, Copy, Debug, PartialEq, Eq)]
pub enum OrderKind {
    /// Buys where Ask is at most its price.
    BuyLimit,
    /// Sells where Bid is at least its price.
    SellLimit,
    /// Buys where Ask is at least its price.
    BuyStop,
    /// Sells where Bid is at most its price.
    SellStop,
    /// Becomes a buy limit where Ask is at least its price.
    BuyStopLimit,
    /// Becomes a sell limit where Bid is at most its price.
    SellStopLimit,
}

/// How long an order stands (MQL5 Reference, ENUM_ORDER_TYPE_TIME).
#[derive(Clone, Copy, Debug, PartialEq, Eq)]
pub enum OrderTime {
    /// Until it is removed.
    Gtc,
    /// To the end of the day.
    Day,
    /// To the second that it names.
    Specified,
    /// To the end of the day that it names.
    SpecifiedDay,
}

/// A pending order (MQL5 Reference, Order Properties).
#[derive(Debug, Drop)]
pub struct Order {
    /// Its number: orders count from 1.
    pub ticket: u64,
    /// The symbol's place in the account's list.
    pub symbol: u8,
    pub kind: OrderKind,
    /// How much it deals, in lots.
    pub volume: Fix8,
    /// The price that it waits for.
    pub price: Fix8,
    /// The price of the limit order that a stop-limit becomes.
    pub stoplimit: Fix8,
    /// The stop loss of the position that it opens, 0 for none.
    pub sl: Fix8,
    /// The take profit of the position that it opens, 0 for none.
    pub tp: Fix8,
    /// When it was placed, in milliseconds since 1970-01-01 00:00.
    pub time_ms: i64,
    /// The second at which it expires, where `type_time` is not `Gtc`.
    pub expires: i64,
    pub type_time: OrderTime,
    /// The expert's number.
    pub magic: u64,
    pub comment: Text,
}
