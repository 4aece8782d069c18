//! Why the book refuses.

use thiserror::Error;

/// Why the book refuses an order. A refused call changes nothing.
#[derive(Clone, Copy, Debug, PartialEq, Eq, Error)]
pub enum BookFault {
    /// 1,000 orders stand.
    #[error("too many orders")]
    Full,
    /// No order of the ticket stands.
    #[error("no such order")]
    NoOrder,
    /// Price, stop-limit price, stops and time of the order are as they were.
    #[error("no changes")]
    NoChanges,
    /// There was no memory for the order.
    #[error("out of memory")]
    OutOfMemory,
}
