//! Bars of the quotes so far, and indicators over them.
#![tactic(auto)]

mod bar_store;
mod copies;
mod fault;
mod held;
mod laws;
mod quote_words;
mod series;
mod symbol_bars;

pub use fault::SeriesFault;
pub use indicators::IndicatorSpec;
pub use laws::{few_quotes_fit, quotes_decide};
pub use series::Series;
