//! Statistics of a test.

use fx8::Money;

/// Statistics over all deals but the deposit (MQL5 Reference, ENUM_STATISTICS). The net of a deal is its
/// profit, swap and commission together.
#[derive(Clone, Copy, Debug, PartialEq, Eq)]
pub struct Stats {
    /// The deposit.
    pub initial_deposit: Money,
    /// The balance less the deposit.
    pub profit: Money,
    /// The sum of all nets above 0.
    pub gross_profit: Money,
    /// The sum of all nets below 0.
    pub gross_loss: Money,
    /// How many deals there are.
    pub deals: u32,
    /// How many deals closed a position, or a part of it.
    pub trades: u32,
    /// How many of these had a net above 0.
    pub profit_trades: u32,
    /// How many of these had a net below 0.
    pub loss_trades: u32,
    /// The greatest fall of the balance from its highest so far.
    pub balance_dd: Money,
    /// The greatest fall of the equity from its highest so far, as it was sampled.
    pub equity_dd: Money,
}
