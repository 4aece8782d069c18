//! Deals.

use fx8::{Fix8, ItemList, Money, Text};

/// Which way a deal goes (MQL5 Reference, ENUM_DEAL_TYPE).
#[derive(Clone, Copy, Debug, PartialEq, Eq)]
pub enum DealKind {
    /// A buy.
    Buy,
    /// A sell.
    Sell,
    /// A change of the balance alone: the deposit.
    Balance,
}

/// What a deal does to its position (MQL5 Reference, ENUM_DEAL_ENTRY).
#[derive(Clone, Copy, Debug, PartialEq, Eq)]
pub enum DealEntry {
    /// Opens it or adds to it.
    In,
    /// Closes a part of it, or all.
    Out,
    /// Reverses it.
    InOut,
    /// Closes it by an opposite position.
    OutBy,
}

/// Why a deal was made (MQL5 Reference, ENUM_DEAL_REASON).
#[derive(Clone, Copy, Debug, PartialEq, Eq)]
pub enum DealReason {
    /// The deposit, or closing at the end of a test.
    Client,
    /// The expert asked for it, by a request or an order.
    Expert,
    /// The stop loss of its position.
    StopLoss,
    /// The take profit of its position.
    TakeProfit,
    /// Stop-out.
    StopOut,
}

/// A deal (MQL5 Reference, Deal Properties).
#[derive(Debug, Drop)]
pub struct Deal {
    /// Its number: deals count from 1, the deposit.
    pub ticket: u64,
    /// The order that it fills, 0 where there is none.
    pub order: u64,
    /// The ticket of its position.
    pub position: u64,
    /// When it was made, in milliseconds since 1970-01-01 00:00.
    pub time_ms: i64,
    /// The symbol's place in the account's list.
    pub symbol: u8,
    pub kind: DealKind,
    pub entry: DealEntry,
    /// How much was dealt, in lots.
    pub volume: Fix8,
    pub price: Fix8,
    /// What it gained on the closed part.
    pub profit: Money,
    /// What it paid of the position's accrued swap.
    pub swap: Money,
    /// What it cost, 0 or below.
    pub commission: Money,
    /// The expert's number.
    pub magic: u64,
    pub reason: DealReason,
    pub comment: Text,
}

/// Deals, in the order in which they were made.
pub type DealList = ItemList<Deal>;
