//! Operands that take no memory, numbers of 64 bits and places of whole variables, and what instructions do
//! to them.
#![tactic(auto)]

mod effects;
mod numbers;
mod operators;
mod unboxed;
mod variables;

pub use effects::does_unboxed;
pub use unboxed::{Number, Unboxed};
