//! The world that a running program asks, and what an act of a program that may ask it comes to.
#![tactic(auto)]

mod halt;
mod world;

pub use halt::Halt;
pub use world::World;
