//! Constants of a source: which constant an expression is, and a constant taken into a type.
#![tactic(auto)]

mod constants;
mod names;
mod source;
mod texts;

pub use constants::{as_type, constant_of};
pub use source::{Source, source_of};
