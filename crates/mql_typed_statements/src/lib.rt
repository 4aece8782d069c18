//! What each form of statement is typed.
#![tactic(auto)]

mod labels;
mod made;

pub use labels::label_of;
pub use made::{Inner, beginning, in_block, statements};
