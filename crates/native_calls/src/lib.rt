//! Calls of native functions by a running program, over a store and a world.
#![tactic(auto)]

mod asking;
mod calls;
mod computing;
mod fitting;
mod lending;
mod outcome;
mod pointers;
mod writing;

pub use calls::call_native;
