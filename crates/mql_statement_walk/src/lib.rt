//! Typing of statements with all that stands in them.
#![tactic(auto)]

mod walk;

pub use walk::told_all;
