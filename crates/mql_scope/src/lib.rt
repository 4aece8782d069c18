//! What is known where a part of a program stands: the variables in force, the program's types and functions,
//! and what a name means there.
#![tactic(auto)]

mod context;
mod facts;
mod here;
mod names;
mod supplied;
mod types;
mod variables;

pub use context::{Enumeration, Field, Known, Layout, Storage};
pub use facts::ProgramFacts;
pub use here::Here;
pub use names::{Callee, callee_of, name_info};
pub use supplied::{predefined_typed, supplied_info};
pub use types::{enumeration_number, sort_type, structure_number, written};
pub use variables::{of_variable, stands_at, variable_named};
