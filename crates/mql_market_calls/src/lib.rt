//! Programs that need an account or a market: the first call of a native function of theirs.
#![tactic(auto)]

mod calls;

pub use calls::first_market_call;
