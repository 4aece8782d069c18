//! Typing of statements: what statements tell, the rules of statements, where the end of a function is reached.
#![tactic(auto)]

mod closing;
mod labels;
mod rules;
mod told;
mod variables;

pub use closing::closes;
pub use labels::switch_kind;
pub use rules::lowest;
pub use told::{
    Label, LabelValue, Static, Told, count, evaluated, has_declared, joined, nothing_told,
    then_told,
};
pub use variables::{declared_standing, dimensions_of, known, size_of, variable_type};
