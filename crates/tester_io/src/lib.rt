//! The outside of the program: files that are read and written whole, and a sink for what it writes.
#![tactic(auto)]

mod calm;
mod disk;
mod fault;
mod memory;
mod memory_sink;
mod outside;
mod shelf;

pub use calm::{CalmFiles, CalmSink};
pub use disk::{DiskFiles, OutSink};
pub use fault::{FileFault, WriteError};
pub use memory::MemFiles;
pub use memory_sink::MemSink;
pub use outside::{Files, Sink};
