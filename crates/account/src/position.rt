//! Open positions.

use fx8::{Fix8, Money, Text};

/// An open position (MQL5 Reference, Position Properties).
#[derive(Debug, Drop)]
pub struct Position {
    /// The ticket of the order that opened it, also after it was reversed.
    pub ticket: u64,
    /// The symbol's place in the account's list.
    pub symbol: u8,
    /// Whether it is bought; otherwise it is sold.
    pub buy: bool,
    /// How much of it is open, in lots: above 0.
    pub volume: Fix8,
    /// The price at which it was opened: after more was added, that of all parts together.
    pub price: Fix8,
    /// The stop loss, 0 for none.
    pub sl: Fix8,
    /// The take profit, 0 for none.
    pub tp: Fix8,
    /// The accrued swap that no deal has paid yet.
    pub swap: Money,
    /// When it was opened, in milliseconds since 1970-01-01 00:00.
    pub time_ms: i64,
    /// The number of the expert that opened it.
    pub magic: u64,
    pub comment: Text,
}
