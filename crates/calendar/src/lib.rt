//! Instants of the days of the years 1970 to 2999, on the calendar of `jiff`.
#![tactic(auto)]

mod instant;

pub use instant::{instant_of, second_of};
