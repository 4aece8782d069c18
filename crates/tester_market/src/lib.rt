//! Settings and the market that they name, read and judged in turn, and the command `quotes`.
#![tactic(auto)]

mod command;
mod market;
mod reading;

pub use command::quotes;
pub use market::read_market;
pub use reading::{PRICE_LIMIT, SETTINGS_LIMIT, read_rows, read_test_settings};
