//! What variables hold, in memory: cells that are read, that get values, that are counted, and how they begin;
//! and how a change of the store ends.
#![tactic(auto)]

mod beginnings;
mod copies;
mod counts;
mod fault;
mod kinds;
mod puts;

pub use beginnings::{array, zero_base, zero_of, zeros};
pub use copies::{copied, copied_all, told, told_all};
pub use counts::{total, weight};
pub use fault::{End, Fault};
pub use kinds::{alike, tag};
pub use puts::{put, put_structure};
