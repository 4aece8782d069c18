//! The market of a test and the quotes that it gives.
#![tactic(auto)]

mod bar_quotes;
mod market;
mod quotes;

pub use market::Market;
pub use market_types::{
    Bar, BarList, Mode, Period, Quote, QuoteList, Rows, Specs, SymbolSpec, Tick, TickList,
};
pub use price_rows::{RowFault, read_bars, read_ticks};
pub use quotes::Quotes;
