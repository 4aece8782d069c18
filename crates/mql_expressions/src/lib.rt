//! Typing of expressions: the rules that they must keep, and what each form tells.
#![tactic(auto)]

mod calls;
mod findings;
mod handed;
mod lowest;
mod made;
mod members;
mod node;
mod operands;
mod tests;
mod values;

pub use findings::{Found, Founds, innermost, kept_by, with_rule};
pub use operands::no_integer;
pub use values::{found_all, found_in};
