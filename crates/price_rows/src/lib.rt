//! The rows of price files.
#![tactic(auto)]

mod bar_row;
mod fields;
mod files;
mod moment;
mod numbers;
mod row_fault;
mod text;
mod tick_row;

pub use files::{read_bars, read_ticks};
pub use row_fault::RowFault;
