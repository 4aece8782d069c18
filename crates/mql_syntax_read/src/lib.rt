//! The reading of statements, declarations and programs off the parts of nodes.
#![tactic(auto)]

mod read_classes;
mod read_functions;
mod read_items;
mod read_statements;

pub use read_items::read_program;
pub use read_statements::read_statement;
