//! Constants: the numbers that values are before a program runs.
#![tactic(auto)]

mod evaluate;
mod number;

pub use evaluate::{ConstantScope, constant_of};
pub use number::{common_kind, converted};
