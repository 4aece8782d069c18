//! Trade requests and their answers.

use fx8::{Fix8, Text};

/// A trade request (MQL5 Reference, structure MqlTradeRequest). Any number may stand in each field: what is
/// judged is what the action reads.
#[derive(Debug, Drop)]
pub struct Request {
    /// What is asked for (ENUM_TRADE_REQUEST_ACTIONS).
    pub action: u32,
    /// The expert's number.
    pub magic: u64,
    /// The ticket of the pending order to change or remove.
    pub order: u64,
    /// The name of the symbol.
    pub symbol: Text,
    /// How much is to be dealt, in lots.
    pub volume: Fix8,
    /// The price that a pending order waits for.
    pub price: Fix8,
    /// The price of the limit order that a stop-limit order becomes.
    pub stoplimit: Fix8,
    /// The stop loss, 0 for none.
    pub sl: Fix8,
    /// The take profit, 0 for none.
    pub tp: Fix8,
    /// How far the price may move, in points. A test fills at once, so it is not read.
    pub deviation: u64,
    /// The type of the order (ENUM_ORDER_TYPE): the field `type` of the Reference.
    pub kind: u32,
    /// How the order may be filled (ENUM_ORDER_TYPE_FILLING): the field `type_filling`.
    pub filling: u32,
    /// How long a pending order stands (ENUM_ORDER_TYPE_TIME).
    pub type_time: u32,
    /// When a pending order expires, in seconds since 1970-01-01 00:00.
    pub expiration: i64,
    /// The comment of the order.
    pub comment: Text,
    /// The ticket of a position, 0 for none.
    pub position: u64,
    /// The ticket of the opposite position that closes it.
    pub position_by: u64,
}

/// The answer to a request (MQL5 Reference, structure MqlTradeResult), as far as it comes of judgement.
#[derive(Clone, Copy, Debug, PartialEq, Eq)]
pub struct Answer {
    /// The number of the return code, as `ReturnCode::number` tells it.
    pub retcode: u32,
    /// The ticket of the order that was taken, changed or removed, 0 where there is none.
    pub order: u64,
    /// The ticket of the first deal that was made, 0 where there is none.
    pub deal: u64,
    /// The volume of that deal in lots, 0 where there is none.
    pub volume: Fix8,
    /// The price of that deal, 0 where there is none.
    pub price: Fix8,
}
