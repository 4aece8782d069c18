//! Frames: calls begin and end, and locals begin anew.
#![tactic(auto)]

mod calls;
mod head;
mod operand;
mod parameters;
mod resets;

pub use calls::{MOST_FRAMES, enter, leave};
pub use head::Head;
pub use operand::Operand;
pub use parameters::{held, slots};
pub use resets::reset;
