//! Valid code, and the law that it is never stuck.
#![tactic(auto)]

mod law;

pub use law::never_stuck;
