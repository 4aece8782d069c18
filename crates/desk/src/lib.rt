//! The desk: what a request and a quote make of an account, and the journal that they leave.
#![tactic(auto)]

mod books;
mod closing;
mod copies;
mod desk;
mod effect;
mod ending;
mod expiry;
mod fault;
mod fired;
mod firing;
mod quoted;
mod requests;
mod stop_out;
mod swap;
mod trigger;

pub use desk::Desk;
pub use fault::DeskFault;
pub use trigger::Trigger;
