//! The native functions of arrays (MQL5 Reference, Array Functions), over cells.
#![tactic(auto)]

mod copying;
mod elements;
mod extremes;
mod leaf_numbers;
mod refills;
mod sizes;
mod sorting;
mod zeroing;

pub use copying::{copy_at, filled, put_number};
pub use elements::{leaf_count, leaves, per_place};
pub use extremes::{Extreme, best};
pub use leaf_numbers::{leaf_number, numbers};
pub use refills::{behind, first_of, refilled};
pub use sizes::{grown, range, resized, size};
pub use sorting::sorted;
pub use zeroing::zeroed;
