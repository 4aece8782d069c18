//! The account: what happens to it, and what is read off that.
#![tactic(auto)]

mod account_spec;
mod copies;
mod deal;
mod event;
mod floating;
mod laws;
mod ledger;
mod margins;
mod money;
mod open_positions;
mod order;
mod position;
mod prices;
mod stats;
mod stop_out;
mod totals;

pub use account_spec::AccountSpec;
pub use copies::{copy_deal, copy_text};
pub use deal::{Deal, DealEntry, DealKind, DealList, DealReason};
pub use event::{Event, EventList, RemovalCause};
pub use floating::equity_of;
pub use laws::{balance_is_sums, volumes_are_sums};
pub use ledger::{Ledger, LedgerFault};
pub use margins::margin_by;
pub use money::{commission, margin, portion, profit, weighted_price};
pub use open_positions::{
    apply_deal, apply_stops, apply_swap, apply_to_open, is_balance, is_buy, is_closed_by, look_up,
    same_side,
};
pub use order::{Order, OrderKind, OrderTime};
pub use position::Position;
pub use prices::Prices;
pub use stats::Stats;
pub use totals::net;
