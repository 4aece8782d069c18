//! Effects of the code's instructions on the operands and the store of a running machine.
#![tactic(auto)]

mod constants;
mod effects;
mod operands;
mod pile;
mod writes;

pub use constants::{constant, copied_operand};
pub use effects::does_effect;
pub use operands::apply;
pub use pile::take;
