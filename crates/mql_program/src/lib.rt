//! What is known of a whole program: its types, global variables and functions.
#![tactic(auto)]

mod defaults;
mod enumerations;
mod functions;
mod globals;
mod named;
mod signatures;
mod source;
mod starts;
mod structures;
mod supplied;
mod tables;
mod types;

pub use defaults::{as_type_or_zero, zero_value};
pub use functions::{bodiless_functions, defined_functions};
pub use globals::{global_type, is_input, variables_in};
pub use signatures::result_of;
pub use source::SourceFacts;
pub use tables::{Tables, tables_of};
