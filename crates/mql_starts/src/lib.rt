//! What variables begin with, and what their declarations tell.
#![tactic(auto)]

mod declaring;
mod initialisers;

pub use declaring::{declares_all, dimensions_used};
pub use initialisers::{Begun, Part, PartStep, nothing_begun, start_constant, started};
