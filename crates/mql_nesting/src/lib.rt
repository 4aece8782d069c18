//! Structures that contain themselves.
#![tactic(auto)]

mod nesting;
mod structure;

pub use nesting::nesting_told;
