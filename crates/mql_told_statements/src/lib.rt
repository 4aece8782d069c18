//! What a statement tells of its declared variables, its values and its parts.
#![tactic(auto)]

mod behind;

pub use behind::{own_scope, shares, told_of};
