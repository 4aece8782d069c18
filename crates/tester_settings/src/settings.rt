//! The settings of a test.

use fx8::{Money, Text8};
use market_types::{Mode, Period, Specs};

/// How positions are kept (MQL5 Reference, enumeration ENUM_ACCOUNT_MARGIN_MODE).
#[derive(Clone, Copy, Debug, PartialEq, Eq)]
pub enum Account {
    /// One position a symbol.
    Netting,
    /// One position for each deal that opens one.
    Hedging,
}

/// The settings of a test (MetaTrader 5 Help, Strategy Tester: settings).
#[derive(Debug, Drop)]
pub struct Settings {
    /// How quotes are made.
    pub mode: Mode,
    /// The tested period.
    pub period: Period,
    /// How positions are kept.
    pub account: Account,
    /// What the account has at first, 0.01 to 1,000,000,000.
    pub deposit: Money,
    /// The account's currency: 1 to 8 ASCII letters.
    pub currency: Text8,
    /// What the margin is divided by, 1 to 10,000.
    pub leverage: u32,
    /// The margin level in percent below which positions are closed, 0 to 100.
    pub stop_out: u32,
    /// How many steps all the calls of a pass may take, 1 to 1,000,000,000.
    pub steps: u64,
    /// What `MathRand`'s generator begins from.
    pub rand_start: u32,
    /// The symbols, of which the first is the tested one.
    pub symbols: Specs,
    /// Whether the settings are those of a study of many passes.
    pub study: bool,
}
