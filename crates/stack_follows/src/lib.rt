//! Code that stands for a program gives exactly what the program means.
#![tactic(auto)]

mod law;

pub use law::code_follows;
