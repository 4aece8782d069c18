//! What a test takes an account to be.

use fx8::Money;
use market_types::Specs;

/// What a test takes an account to be (MQL5 Reference, Account Properties).
#[derive(Debug, Drop)]
pub struct AccountSpec {
    /// Whether each deal may have a position of its own; otherwise a symbol has at most one position
    /// (netting).
    pub hedging: bool,
    /// The first balance, from 0.01 to 1,000,000,000.
    pub deposit: Money,
    /// By how much the margin of a position is less than its worth, 1 to 10,000.
    pub leverage: u32,
    /// The percentage of equity to margin below which positions are closed, 0 to 100.
    pub stop_out: u32,
    /// The numbers of the symbols, in the order of the market.
    pub specs: Specs,
}
