//! One walk over the syntax of a program, by which each rule is asked of each thing that is written in it.
#![tactic(auto)]

mod items;
mod judge;
mod statements;
mod values;

pub use items::judged;
pub use judge::Judge;
pub use statements::behind;
pub use values::{is_local, with_local, with_locals};
