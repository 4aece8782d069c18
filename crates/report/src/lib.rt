//! The texts of reports.
#![tactic(auto)]

mod quote;
mod time;

pub use quote::{push_quote_line, quote_line, quotes_text};
pub use time::{END_OF_TIMES, push_time};
