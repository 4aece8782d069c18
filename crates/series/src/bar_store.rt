//! The bars of one symbol and period.
ghost use Rattle.std.specs.Prelude.{◌≡◌, ◌≤◌, ◌<◌, ◌+◌, ◌^◌, ℕ, List, [], ◌∷◌, ◌++◌, length, All, OnOk, OnSome, IfSome};
ghost use Rattle.market_types.specs.declared.quote.Quote.{Quote};
ghost use Rattle.market_data.specs.Quotes.{IsQuote};
ghost use Rattle.indicators.specs.Prices.{IsPriced};
ghost use Rattle.series.specs.Bars.{opens, lots};
ghost use Rattle.series.specs.Pushed.{opened, grown, newest_of, with_quote, FitsWith};
ghost use Rattle.series.specs.Stored.{history_of};

use crate::quote_words::{grown, lots, opened, opens};
use fx8::OutOfMemory;
use market_types::{Bar, Period, Quote};
use std::alloc::Global;
use std::marker::Model;

/// The bars of one symbol and period. Contracts see them, what is traded in the newest, and for how many more
/// bars there is room.
#[derive(Drop)]
pub(crate) struct BarStore {
    bars: Vec<Bar>,
    traded: u128,
}

impl Model for BarStore {
    ghost use Rattle.std.specs.Prelude.{◌-◌, ◌<◌, ◌*◌, ◌^◌, All};
    ghost use Rattle.std.specs.Vec.{vec_len, vec_capacity};
    ghost use Rattle.indicators.specs.Prices.{IsPriced};
    ghost use Rattle.series.specs.Stored.{Stored};

    ghost Value = { Stored };

    ghost view = { λ s. record {
      bars = s.bars.items;
      traded = s.traded;
      spare = vec_capacity s.bars - vec_len s.bars;
    } };

    ghost invariant = { λ s. All IsPriced s.bars.items };
}

impl BarStore {
    /// No bars, which take no memory.
    pub(crate) fn new(alloc: Global) -> BarStore
        ensures bars { result.bars ≡ [] }
        ensures traded { result.traded ≡ 0 }
    {
        BarStore {
            bars: Vec::new(alloc),
            traded: 0,
        }
    }

    /// The bars, the oldest first.
    pub(crate) fn as_slice(&self) -> &[Bar]
        ensures value { result.now ≡ self.now.bars }
        ensures priced { All IsPriced result.now }
    {
        self.bars.as_slice()
    }

    /// Makes room for one more bar, and changes none.
    pub(crate) fn reserve(&mut self) -> Result<(), OutOfMemory>
        ensures same { history_of self.new ≡ history_of self.old }
        ensures ok { OnOk result (1 ≤ self.new.spare) }
    {
        self.bars.reserve(1)?;
        Ok(())
    }

    /// The newest bar, where a quote belongs to it.
    fn newest(&self, period: Period, quote: &Quote) -> Option<Bar>
        ensures value { result ≡ newest_of period quote.now self.now.bars }
        ensures priced { IfSome result IsPriced }
        ensures some { OnSome result (1 ≤ length self.now.bars) }
    {
        match self.bars.last() {
            Some(newest) => {
                if newest.time.unsigned_abs() == opens(period, quote) {
                    Some(*newest)
                } else {
                    None
                }
            }
            None => None,
        }
    }

    #[tactic(auto, unfolding(crate::specs::Pushed::with_quote))]
    /// Takes a quote: into the newest bar where it belongs to it, else into a bar of its own.
    pub(crate) fn take(&mut self, period: Period, digits: u8, quote: &Quote)
        requires quote { IsQuote quote.now }
        requires room { 1 ≤ self.old.spare }
        requires volumes { FitsWith digits quote.now self.old.traded
            (newest_of period quote.now self.old.bars) }
        ensures { history_of self.new ≡ with_quote period digits quote.now (history_of self.old) }
    {
        match self.newest(period, quote) {
            Some(newest) => {
                let traded = self.traded + lots(quote) as u128;
                let bar = grown(digits, &newest, quote, traded);
                let at = self.bars.len() - 1;
                self.bars[at] = bar;
                self.traded = traded;
            }
            None => {
                let bar = opened(period, digits, quote);
                let at = self.bars.len();
                let _done = self.bars.insert(at, bar);
                self.traded = lots(quote) as u128;
            }
        }
    }
}
