//! Typing of a source: its names and constants, what is known of its program, and the rules of types.
#![tactic(auto)]

mod source;

pub use source::{bodies_told, check_source};
