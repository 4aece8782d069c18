//! From the sources of a program to its code.
#![tactic(auto)]

mod compiling;
mod program;

pub use compiling::{CompileFault, compile};
pub use program::{RunFault, judge_program};
