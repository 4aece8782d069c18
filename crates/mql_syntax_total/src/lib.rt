//! The syntax of what the parser answers: each of its trees is read as a program.
#![tactic(auto)]

mod laws;
mod reading;

pub use laws::{parts_are_formed, parts_are_read, programs_are_read};
pub use reading::read_parsed;
