//! The types of a market: bars, ticks, quotes, periods and the numbers of a symbol.
#![tactic(auto)]

mod bar;
mod mode;
mod period;
mod quote;
mod rows;
mod symbol_spec;
mod tick;

pub use bar::{Bar, BarList};
pub use mode::Mode;
pub use period::Period;
pub use quote::{Quote, QuoteList};
pub use rows::Rows;
pub use symbol_spec::{Specs, SymbolSpec};
pub use tick::{Tick, TickList};
