//! How a test makes quotes.
ghost use Rattle.std.specs.Prelude.{◌≡◌};
ghost use Rattle.market_types.specs.Words.{mode_name};

/// How a test makes quotes of the rows of a market (MetaTrader 5 Help, Strategy Tester: modelling).
#[derive(Clone, Copy, Debug, PartialEq, Eq)]
pub enum Mode {
    /// Every tick of a ticks file.
    Ticks,
    /// Four quotes of each bar of one minute: 1 minute OHLC.
    Ohlc,
    /// The same quotes, of which the expert sees the first of each bar of the tested period: open prices
    /// only.
    Opening,
}

impl Mode {
    /// The mode's word in settings and reports.
    pub fn name(self) -> &'static str
        ensures { result.now ≡ mode_name self }
    {
        match self {
            Mode::Ticks => "ticks",
            Mode::Ohlc => "ohlc",
            Mode::Opening => "open",
        }
    }
}
