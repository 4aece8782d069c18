//! Operators on operands, in memory: what they give, and what they make of the store.
#![tactic(auto)]

mod apply;
mod casts;
mod comparisons;
mod doubles;
mod numbers;
mod parts;
mod strings;
mod updates;
mod values;

pub use apply::{on_none, on_one, on_two};
pub use casts::{cast, is_kind};
pub use updates::{bump_at, keep, update};
pub use values::{binary, unary_of};
