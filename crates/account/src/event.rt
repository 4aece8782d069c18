//! What happens to an account.

use crate::{Deal, Order};
use fx8::{Fix8, ItemList, Money};

/// Why an order stands no longer.
#[derive(Clone, Copy, Debug, PartialEq, Eq)]
pub enum RemovalCause {
    /// The expert asked for it.
    Request,
    /// Its time is over.
    Expired,
    /// There was no money for its deal.
    NoMoney,
    /// It was filled.
    Filled,
    /// The test ended.
    Ended,
}

/// One thing that happens to an account.
#[derive(Debug, Drop)]
pub enum Event {
    /// An order was placed.
    Placed(Order),
    /// The order of that ticket got the price, stop-limit price, stops and time of this one.
    Modified(Order),
    /// An order stands no longer.
    Removed { ticket: u64, cause: RemovalCause },
    /// The stop-limit order of the ticket became a limit order.
    Triggered(u64),
    /// A deal was made.
    Added(Deal),
    /// A position got other stops.
    Stops { ticket: u64, sl: Fix8, tp: Fix8 },
    /// A position accrued swap.
    Swap { ticket: u64, amount: Money },
}

/// Events, in the order in which they happened.
pub type EventList = ItemList<Event>;
