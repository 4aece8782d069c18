//! The quotes of a market.
ghost use Rattle.std.specs.Prelude.{◌≡◌, ◌≤◌, [], ◌∷◌, None, length, map, MatchOption, IfSome, All};
ghost use Rattle.market_types.specs.Ordered.{IsBar, IsTick};
ghost use Rattle.market_types.specs.Ranges.{IsSpec};
ghost use Rattle.market_data.specs.Quotes.{bar_quotes, heard, tick_quote, heard_by, quotes_of_rows, IsQuote, AreTimed};
ghost use Rattle.market_data.specs.Markets.{quotes, AreRows};

use crate::Market;
use crate::bar_quotes::BarQuotes;
use market_types::{Bar, Mode, Period, Quote, Rows, SymbolSpec, Tick};
use std::marker::Model;

/// The quotes of a market, one at a time. Contracts see the quotes that are left.
#[derive(Drop)]
pub struct Quotes<'a> {
    bars: BarQuotes<'a>,
    ticks: &'a [Tick],
}

impl<'a> Model for Quotes<'a> {
    ghost use Rattle.std.specs.Prelude.{List, ◌++◌, map, All};
    ghost use Rattle.market_types.specs.declared.quote.Quote.{Quote};
    ghost use Rattle.market_types.specs.Ordered.{IsTick};
    ghost use Rattle.market_data.specs.Quotes.{tick_quote};

    ghost Value = { List Quote };

    ghost view = { λ q. q.bars ++ map tick_quote q.ticks.now };

    ghost invariant = { λ q. All IsTick q.ticks.now };
}

/// The quote of a tick.
fn tick_quote(tick: &Tick) -> Quote
    requires { IsTick tick.now }
    ensures value { result ≡ tick_quote tick.now }
    ensures ranges { IsQuote result }
{
    Quote {
        symbol: 0,
        time_ms: tick.time_ms,
        bid: tick.bid,
        ask: tick.ask,
        last: tick.last,
        volume: tick.volume,
        flags: tick.flags,
        loud: true,
    }
}

/// The period whose bars tell which quotes are loud, where not all are.
fn heard_by(mode: Mode, period: Period) -> Option<Period>
    ensures { result ≡ heard_by mode period }
{
    match mode {
        Mode::Opening => Some(period),
        Mode::Ohlc | Mode::Ticks => None,
    }
}

impl<'a> Quotes<'a> {
    /// The quotes of ticks.
    fn of_ticks(ticks: &'a [Tick]) -> Quotes<'a>
        requires { All IsTick ticks.now }
        ensures { result ≡ map tick_quote ticks.now }
    {
        Quotes {
            bars: BarQuotes::start(&[], None, 0, None),
            ticks,
        }
    }

    /// The quotes of bars.
    fn of_bars(bars: &'a [Bar], spec: &SymbolSpec, period: Option<Period>) -> Quotes<'a>
        requires bars { All IsBar bars.now }
        requires spec { IsSpec spec.now }
        ensures { result ≡ heard period None (bar_quotes spec.now.spread spec.now.digits bars.now) }
    {
        Quotes {
            bars: BarQuotes::start(bars, spec.spread, spec.digits, period),
            ticks: &[],
        }
    }

    /// The quotes of a symbol.
    fn of_rows(mode: Mode, period: Period, spec: &SymbolSpec, rows: &'a Rows) -> Quotes<'a>
        requires spec { IsSpec spec.now }
        requires rows { AreRows mode rows.now }
        ensures { result ≡ quotes_of_rows mode period spec.now rows.now }
    {
        match rows {
            Rows::Ticks(ticks) => Quotes::of_ticks(ticks.as_slice()),
            Rows::Bars(bars) => Quotes::of_bars(bars.as_slice(), spec, heard_by(mode, period)),
        }
    }

    /// All the quotes of a market, whose times do not fall. They are made one at a time, and take no memory.
    #[tactic(auto, using(crate::proofs::Times::rows_are_timed, crate::proofs::Counts::rows_are_few))]
    pub fn start(market: &'a Market) -> Quotes<'a>
        ensures value { result ≡ quotes market.now }
        ensures timed { AreTimed result }
        ensures few { length result ≤ 16000000 }
    {
        match market.first() {
            Some(listed) => Quotes::of_rows(
                market.mode(),
                market.period(),
                &listed.spec,
                &listed.rows,
            ),
            None => Quotes::of_ticks(&[]),
        }
    }

    /// The next quote; `None` exactly after the last. It takes no memory.
    pub fn next(&mut self) -> Option<Quote>
        ensures next { MatchOption result ((self.old ≡ [])
            × (self.new ≡ [])) (λ quote. self.old ≡ quote ∷ self.new) }
        ensures ranges { IfSome result IsQuote }
    {
        if let Some(quote) = self.bars.next() {
            return Some(quote);
        }
        let [tick, rest @ ..] = self.ticks else {
            return None;
        };
        self.ticks = rest;
        Some(tick_quote(tick))
    }
}
