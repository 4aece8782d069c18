//! The bars of one symbol.
ghost use Rattle.std.specs.Prelude.{◌≡◌, OnOk};
ghost use Rattle.market_data.specs.Quotes.{IsQuote};
ghost use Rattle.series.specs.Stored.{history_of};
ghost use Rattle.series.specs.Symbols.{histories, of_period, without_bars, with_quote_each, FitEach, HasRoom};

use crate::bar_store::BarStore;
use fx8::OutOfMemory;
use market_types::{Period, Quote};
use std::alloc::Global;

/// The bars of one symbol in each period.
#[derive(Drop)]
pub(crate) struct SymbolBars {
    pub(crate) digits: u8,
    pub(crate) m1: BarStore,
    pub(crate) m5: BarStore,
    pub(crate) m15: BarStore,
    pub(crate) m30: BarStore,
    pub(crate) h1: BarStore,
    pub(crate) h4: BarStore,
    pub(crate) d1: BarStore,
}

impl SymbolBars {
    /// No bars of a symbol whose prices have so many digits.
    pub(crate) fn new(alloc: Global, digits: u8) -> SymbolBars
        ensures { histories result ≡ without_bars digits }
    {
        SymbolBars {
            digits,
            m1: BarStore::new(alloc),
            m5: BarStore::new(alloc),
            m15: BarStore::new(alloc),
            m30: BarStore::new(alloc),
            h1: BarStore::new(alloc),
            h4: BarStore::new(alloc),
            d1: BarStore::new(alloc),
        }
    }

    /// The bars of a period.
    pub(crate) fn of(&self, period: Period) -> &BarStore
        ensures { history_of result.now ≡ of_period period (histories self.now) }
    {
        match period {
            Period::M1 => &self.m1,
            Period::M5 => &self.m5,
            Period::M15 => &self.m15,
            Period::M30 => &self.m30,
            Period::H1 => &self.h1,
            Period::H4 => &self.h4,
            Period::D1 => &self.d1,
        }
    }

    /// Makes room for one more bar of each period, and changes none.
    pub(crate) fn reserve(&mut self) -> Result<(), OutOfMemory>
        ensures same { histories self.new ≡ histories self.old }
        ensures ok { OnOk result (HasRoom self.new) }
    {
        self.m1.reserve()?;
        self.m5.reserve()?;
        self.m15.reserve()?;
        self.m30.reserve()?;
        self.h1.reserve()?;
        self.h4.reserve()?;
        self.d1.reserve()?;
        Ok(())
    }

    /// Takes a quote into the bars of each period.
    pub(crate) fn take(&mut self, quote: &Quote)
        requires quote { IsQuote quote.now }
        requires room { HasRoom self.old }
        requires volumes { FitEach quote.now (histories self.old) }
        ensures { histories self.new ≡ with_quote_each quote.now (histories self.old) }
    {
        self.m1.take(Period::M1, self.digits, quote);
        self.m5.take(Period::M5, self.digits, quote);
        self.m15.take(Period::M15, self.digits, quote);
        self.m30.take(Period::M30, self.digits, quote);
        self.h1.take(Period::H1, self.digits, quote);
        self.h4.take(Period::H4, self.digits, quote);
        self.d1.take(Period::D1, self.digits, quote);
    }
}
