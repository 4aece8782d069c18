//! Indicators as functions of bars.
#![tactic(auto)]

mod averages;
mod indicator_spec;
mod kinds;
mod prices;
mod rounding;
mod values;

pub use indicator_spec::IndicatorSpec;
pub use kinds::{AppliedPrice, Indicator, Kind, Method};
pub use values::told;
