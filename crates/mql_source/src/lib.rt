//! What holds of sources in every stage: their limits, and how a source that breaks a rule is told.
#![tactic(auto)]

mod fault;
mod limits;

pub use fault::SourceFault;
pub use limits::{MOST_DEPTH, MOST_FILES, MOST_TOKENS, MOST_UNITS};
