//! The native functions of times, over arguments that are lent.
#![tactic(auto)]

mod time_parts;
mod times;

pub use times::{struct_to_time, time_to_struct};
