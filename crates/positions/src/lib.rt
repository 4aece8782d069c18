//! The open positions of an account, and what fills make of them.
#![tactic(auto)]

mod acts;
mod by_opposite;
mod fill;
mod hedging;
mod laws;
mod money;
mod netting;
mod rule;

pub use acts::stop_reason;
pub use by_opposite::are_opposite;
pub use fill::{Fill, FillFault, Levels, spec_at};
pub use hedging::Hedging;
pub use laws::positions_go_on;
pub use money::has_money;
pub use netting::Netting;
pub use rule::PositionRule;
