//! The native functions of strings (MQL5 Reference, String Functions; Conversion Functions). A string is its
//! 16-bit units.
#![tactic(auto)]

mod cases;
mod counts;
mod digits;
mod edits;
mod orders;
mod replacing;
mod searches;
mod splitting;
mod trims;

pub use cases::{capital, lowered, raised, small};
pub use counts::{behind, count_in, part_of, place_in, unit_at, width_of};
pub use digits::{fixed_text, places_of, point_text};
pub use edits::{padded, with_unit};
pub use orders::{order, order_without_case};
pub use replacing::{Counted, replace_in};
pub use searches::{begins, find};
pub use splitting::split;
pub use trims::{trimmed_left, trimmed_right};
