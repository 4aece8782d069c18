//! The forms of the nodes of a tree.
#![tactic(auto)]

mod form;

pub use form::{Form, numbers_are_distinct};
