//! What each native function that asks no world computes, over arguments that are lent.
#![tactic(auto)]

mod contents;
mod dispatch;

pub use contents::{Chapter, chapter_of};
pub use dispatch::computes;
