//! How a program begins: its globals and statics are made, and its inputs get their values.
#![tactic(auto)]

mod globals;
mod inputs;
mod program;

pub use program::begin;
