//! The answer of a command: its status, what it reads and writes, and the line that tells a fault.
#![tactic(auto)]

pub mod outside;
pub mod status;
pub mod text;

pub use mql_source::SourceFault;
pub use status::{Status, fault_text};
