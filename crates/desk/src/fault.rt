//! Why a desk stops.

use thiserror::Error;

/// Why a call of the desk is not done.
#[derive(Clone, Copy, Debug, PartialEq, Eq, Error)]
pub enum DeskFault {
    /// The 50,001st deal would be added.
    #[error("too many deals")]
    DealsExhausted,
    /// It is the 100,001st request.
    #[error("too many requests")]
    RequestsExhausted,
    /// There is no memory. The desk is closed from then on.
    #[error("out of memory")]
    OutOfMemory,
}
