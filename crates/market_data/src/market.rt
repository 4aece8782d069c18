//! The market of a test.
ghost use Rattle.std.specs.Prelude.{◌≡◌, [], ◌∷◌, ◌++◌, length, OnOk, OnErr, MatchOption, option_map};
ghost use Rattle.std.specs.List.{slice_get};
ghost use Rattle.std.specs.Option.{option_copied};
ghost use Rattle.market_types.specs.Ranges.{IsSpec};
ghost use Rattle.market_data.specs.Markets.{AreRows, IsListed, quotes};
ghost use Rattle.market_data.specs.Quotes.{quotes_of_rows};

use fx8::{ItemList, OutOfMemory};
use market_types::{Mode, Period, Rows, SymbolSpec};
use std::alloc::Global;
use std::marker::Model;

/// A symbol of a market.
#[derive(Debug, Drop)]
pub(crate) struct Listed {
    pub(crate) spec: SymbolSpec,
    pub(crate) rows: Rows,
}

/// The market of a test: how its quotes are made, the tested period, and its symbol with the rows of its
/// price file. Contracts see these.
#[derive(Debug, Drop)]
pub struct Market {
    mode: Mode,
    period: Period,
    listed: ItemList<Listed>,
}

impl Model for Market {
    ghost use Rattle.market_data.specs.Markets.{Listing, IsListing};

    ghost Value = { Listing };

    ghost view = { λ m. record { mode = m.mode; period = m.period; listed = m.listed } };

    ghost invariant = { λ m. IsListing (record { mode = m.mode; period = m.period; listed = m.listed }) };
}

impl Market {
    /// A market without a symbol, which takes no memory.
    pub fn new(alloc: Global, mode: Mode, period: Period) -> Market
        ensures { result ≡ record { mode = mode; period = period; listed = [] } }
    {
        Market {
            mode,
            period,
            listed: ItemList::new(alloc),
        }
    }

    /// Adds a symbol with its rows: ticks in the mode `Ticks`, and else bars. It asks for a market that has
    /// none yet.
    ///
    /// # Errors
    ///
    /// `OutOfMemory`; the market is then as before.
    pub fn add(&mut self, spec: SymbolSpec, rows: Rows) -> Result<(), OutOfMemory>
        requires spec { IsSpec spec }
        requires rows { AreRows self.old.mode rows }
        requires none { self.old.listed ≡ [] }
        ensures ok { OnOk result (self.new ≡ record {
          mode = self.old.mode;
          period = self.old.period;
          listed = record { spec = spec; rows = rows } ∷ [];
        }) }
        ensures err { OnErr result (self.new ≡ self.old) }
    {
        self.listed.push(Listed { spec, rows })
    }

    /// The symbol of the market, if it has one.
    pub(crate) fn first(&self) -> Option<&Listed>
        ensures { MatchOption result (quotes self.now ≡ [])
            (λ l. (quotes self.now ≡ quotes_of_rows self.now.mode self.now.period l.now.spec l.now.rows)
            × IsListed self.now.mode l.now) }
    {
        self.listed.at(0)
    }

    /// How the quotes are made.
    pub fn mode(&self) -> Mode
        ensures { result ≡ self.now.mode }
    {
        self.mode
    }

    /// The tested period.
    pub fn period(&self) -> Period
        ensures { result ≡ self.now.period }
    {
        self.period
    }

    /// How many symbols the market has.
    pub fn symbols(&self) -> u8
        ensures { result ≡ length self.now.listed }
    {
        self.listed.len() as u8
    }

    /// The numbers of a symbol; `None` exactly where the place is not below `symbols`.
    pub fn spec(&self, symbol: u8) -> Option<&SymbolSpec>
        ensures { option_copied result ≡ option_map (λ l. l.spec) (slice_get self.now.listed symbol) }
    {
        match self.listed.at(symbol as u64) {
            Some(listed) => Some(&listed.spec),
            None => None,
        }
    }

    /// The rows of a symbol; `None` exactly where the place is not below `symbols`.
    pub fn rows(&self, symbol: u8) -> Option<&Rows>
        ensures { option_copied result ≡ option_map (λ l. l.rows) (slice_get self.now.listed symbol) }
    {
        match self.listed.at(symbol as u64) {
            Some(listed) => Some(&listed.rows),
            None => None,
        }
    }
}
