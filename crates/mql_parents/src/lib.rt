//! Parents of structures.
#![tactic(auto)]

mod known;
mod rules;

pub use rules::parents_told;
