//! The native functions of numbers (MQL5 Reference, Math Functions; Common Functions, NormalizeDouble).
#![tactic(auto)]

mod doubles;
mod errors;
mod extremes;
mod powers;
mod rounding;
mod size;

pub use errors::error_of;
pub use extremes::{greater, greater_double, lesser, lesser_double};
pub use powers::{power, rest_of, square_root};
pub use rounding::{ceil_of, decimals_of, floor_of, normalize, round};
pub use size::{size_in, size_of_double};
