//! A pass of the tester without an account.
#![tactic(auto)]

mod events;
mod law;
mod pass;
mod result;

pub use law::{code_passes_as_source, one_outcome};
pub use pass::run_pass;
pub use result::{PassEnd, PassResult};
