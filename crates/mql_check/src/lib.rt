//! Typing of whole programs: what a program's declarations and statements mean by their types, and the
//! rules that they must keep.
#![tactic(auto)]

mod bodies;
mod globals;
mod inputs;
mod items;
mod lists;
mod made;
mod outside;
mod owned;
mod params;
mod program;
mod walk;

pub use program::{bodies_told, check_with};
