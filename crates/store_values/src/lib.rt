//! Values that a change of the store gives, or the error at the line in force.
#![tactic(auto)]

mod conversion;
mod values;

pub use conversion::{convert, sort_of};
pub use values::{no_fault, text};
