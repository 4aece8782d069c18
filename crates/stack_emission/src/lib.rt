//! The code of a typed program.
#![tactic(auto)]

mod copies;
mod draft;
mod expressions;
mod forms;
mod functions;
mod program;
mod statements;
mod switches;

pub use forms::has_code;
pub use program::{LowerFault, lower};
