//! The settings of a test.
#![tactic(auto)]

mod input;
mod settings;

pub use input::{Assignment, Assignments, InputRange, InputRanges};
pub use settings::{Account, Settings};
