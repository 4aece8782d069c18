//! Values, errors that end a run, and what a program asks its world and is answered.
#![tactic(auto)]

mod error;
mod host;
mod shared;
mod value;

pub use error::{ErrorKind, RunError};
pub use host::{HostCall, HostEnd, Reply};
pub use shared::values_may_be_shared;
pub use value::{Value, ValueList};
