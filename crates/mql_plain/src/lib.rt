//! Plain programs: those without classes, pointers and templates.
#![tactic(auto)]

mod form;

pub use form::{PlainForm, first_off};
