//! The world of a test without an account: what an expert's calls of it get and change.
#![tactic(auto)]

mod asked;
mod calls;
mod journal;
mod printed;
mod world;

pub use asked::Asked;
pub use journal::{JOURNAL_LIMIT, push_shown};
pub use printed::{PrintList, Printed};
pub use world::TesterWorld;
