//! The quotes that bars give.
ghost use Rattle.std.specs.Prelude.{◌≡◌, true, ◌≤◌, ◌*◌, pos, ◌+ℤ◌, ◌*ℤ◌, ◌≤ℤ◌, [], ◌∷◌, None, MatchOption, IfSome, All, ◌^◌};
ghost use Rattle.market_types.specs.Ordered.{IsBar, IsPrice};
ghost use Rattle.market_types.specs.Ranges.{ArePoints};
ghost use Rattle.market_data.specs.Quotes.{point, spread_of, quote, rises, bar_quotes, bar_number, is_heard, number_at, with_loud, heard, IsAsk, IsQuote};
ghost use Rattle.market_data.specs.Stages.{price_at, seconds_at};

use fx8::{Fix8, unit_of_place};
use market_types::{Bar, Period, Quote};
use std::marker::Model;

/// The four moments at which a bar gives a quote.
#[derive(Clone, Copy)]
pub(crate) enum Stage {
    Opening,
    Early,
    Late,
    Closing,
}

impl Stage {
    /// How many seconds after the bar's opening the stage is.
    fn seconds(self) -> i64
        ensures { result ≡ pos (seconds_at self) }
    {
        match self {
            Stage::Opening => 0,
            Stage::Early => 20,
            Stage::Late => 40,
            Stage::Closing => 59,
        }
    }
}

/// A point in units of 10^-8.
fn point(digits: u8) -> i64
    requires { digits ≤ 8 }
    ensures value { result ≡ pos (point digits) }
    ensures most { point digits ≤ 10 ^ 8 }
{
    unit_of_place(digits) as i64
}

/// Whether the bar closes at its opening price or above.
fn rises(bar: &Bar) -> bool
    ensures { result ≡ rises bar.now }
{
    bar.o <= bar.c
}

/// The price of the bar at a stage.
fn price_at(bar: &Bar, stage: Stage) -> Fix8
    requires { IsBar bar.now }
    ensures value { result ≡ price_at bar.now stage }
    ensures range { IsPrice result }
{
    match stage {
        Stage::Opening => bar.o,
        Stage::Early => if rises(bar) { bar.l } else { bar.h },
        Stage::Late => if rises(bar) { bar.h } else { bar.l },
        Stage::Closing => bar.c,
    }
}

/// The spread in points: that of the symbol where it is set, else that of the bar.
fn spread_of(spread: Option<u32>, bar: &Bar) -> u32
    requires spread { ArePoints spread }
    requires bar { IsBar bar.now }
    ensures value { result ≡ spread_of spread bar.now }
    ensures most { result ≤ 1000000 }
{
    match spread {
        Some(points) => points,
        None => bar.spread,
    }
}

/// Ask, the spread above Bid.
fn ask(bid: Fix8, spread: u32, digits: u8) -> Fix8
    requires bid { IsPrice bid }
    requires spread { spread ≤ 1000000 }
    requires digits { digits ≤ 8 }
    ensures value { result ≡ bid +ℤ pos (spread * point digits) }
    ensures range { IsAsk result }
{
    Fix8::of_units(bid.units() + spread as i64 * point(digits))
}

/// When the bar is at a stage, in milliseconds.
fn time_at(bar: &Bar, stage: Stage) -> i64
    requires { IsBar bar.now }
    ensures value { result ≡ (bar.now.time +ℤ pos (seconds_at stage)) *ℤ pos 1000 }
    ensures from { pos 0 ≤ℤ result }
    ensures to { result ≤ℤ pos 32503679999999 }
{
    (bar.time + stage.seconds()) * 1000
}

/// A loud quote of these prices.
fn quote_of(time_ms: i64, bid: Fix8, ask: Fix8) -> Quote
    requires from { pos 0 ≤ℤ time_ms }
    requires to { time_ms ≤ℤ pos 32503679999999 }
    requires bid { IsPrice bid }
    requires ask { IsAsk ask }
    ensures value { result
        ≡ record { symbol = 0; time_ms = time_ms; bid = bid; ask = ask; last = pos 0; volume = pos 0; flags = 6; loud = true } }
    ensures ranges { IsQuote result }
{
    Quote {
        symbol: 0,
        time_ms,
        bid,
        ask,
        last: Fix8::of_units(0),
        volume: Fix8::of_units(0),
        flags: 6,
        loud: true,
    }
}

/// The quote of a bar at a stage.
fn quote_at(bar: &Bar, spread: Option<u32>, digits: u8, stage: Stage) -> Quote
    requires bar { IsBar bar.now }
    requires spread { ArePoints spread }
    requires digits { digits ≤ 8 }
    ensures value { result ≡ quote spread digits bar.now (seconds_at stage) (price_at bar.now stage) }
    ensures ranges { IsQuote result }
{
    let bid = price_at(bar, stage);
    let ask = ask(bid, spread_of(spread, bar), digits);
    quote_of(time_at(bar, stage), bid, ask)
}

/// The number of a period's bar at a time.
fn bar_number(period: Period, time_ms: i64) -> u64
    requires from { pos 0 ≤ℤ time_ms }
    ensures { result ≡ bar_number period time_ms }
{
    time_ms as u64 / 1000 / period.seconds() as u64
}

/// Whether a quote is heard, by the number of the bar before.
fn is_heard(period: Option<Period>, before: Option<u64>, time_ms: i64) -> bool
    requires from { pos 0 ≤ℤ time_ms }
    ensures { result ≡ is_heard period before time_ms }
{
    match period {
        None => true,
        Some(period) => match before {
            None => true,
            Some(number) => number != bar_number(period, time_ms),
        },
    }
}

/// The number of the bar of a quote, where a period is given.
fn number_at(period: Option<Period>, time_ms: i64) -> Option<u64>
    requires from { pos 0 ≤ℤ time_ms }
    ensures { result ≡ number_at period time_ms }
{
    match period {
        None => None,
        Some(period) => Some(bar_number(period, time_ms)),
    }
}

/// The quote, loud or silent.
fn with_loud(quote: Quote, loud: bool) -> Quote
    requires { IsQuote quote }
    ensures value { result ≡ with_loud loud quote }
    ensures ranges { IsQuote result }
{
    Quote { loud, ..quote }
}

/// The quotes of bars, one at a time. Contracts see the quotes that are left.
#[derive(Drop)]
pub(crate) struct BarQuotes<'a> {
    bars: &'a [Bar],
    spread: Option<u32>,
    digits: u8,
    period: Option<Period>,
    before: Option<u64>,
    stage: Stage,
}

impl<'a> Model for BarQuotes<'a> {
    ghost use Rattle.std.specs.Prelude.{List, ◌≤◌, All};
    ghost use Rattle.market_types.specs.declared.quote.Quote.{Quote};
    ghost use Rattle.market_types.specs.Ordered.{IsBar};
    ghost use Rattle.market_types.specs.Ranges.{ArePoints};
    ghost use Rattle.market_data.specs.Quotes.{heard};
    ghost use Rattle.market_data.specs.Stages.{quotes_left};

    ghost Value = { List Quote };

    ghost view = { λ q. heard q.period q.before (quotes_left q.spread q.digits q.bars.now q.stage) };

    ghost invariant = { λ q. (q.digits ≤ 8) × ArePoints q.spread × All IsBar q.bars.now };
}

impl<'a> BarQuotes<'a> {
    /// All the quotes of bars of a symbol whose prices show so many digits. Where a period is given, only the
    /// first quote of each of its bars is loud.
    pub(crate) fn start(
        bars: &'a [Bar],
        spread: Option<u32>,
        digits: u8,
        period: Option<Period>,
    ) -> BarQuotes<'a>
        requires bars { All IsBar bars.now }
        requires spread { ArePoints spread }
        requires digits { digits ≤ 8 }
        ensures { result ≡ heard period None (bar_quotes spread digits bars.now) }
    {
        BarQuotes {
            bars,
            spread,
            digits,
            period,
            before: None,
            stage: Stage::Opening,
        }
    }

    /// The next quote; `None` exactly after the last.
    pub(crate) fn next(&mut self) -> Option<Quote>
        ensures next { MatchOption result ((self.old ≡ [])
            × (self.new ≡ [])) (λ quote. self.old ≡ quote ∷ self.new) }
        ensures ranges { IfSome result IsQuote }
    {
        let [bar, rest @ ..] = self.bars else {
            return None;
        };
        let quote = quote_at(bar, self.spread, self.digits, self.stage);
        let loud = is_heard(self.period, self.before, quote.time_ms);
        let number = number_at(self.period, quote.time_ms);
        let heard = with_loud(quote, loud);
        match self.stage {
            Stage::Opening => {
                self.before = number;
                self.stage = Stage::Early;
                Some(heard)
            }
            Stage::Early => {
                self.before = number;
                self.stage = Stage::Late;
                Some(heard)
            }
            Stage::Late => {
                self.before = number;
                self.stage = Stage::Closing;
                Some(heard)
            }
            Stage::Closing => {
                self.before = number;
                self.stage = Stage::Opening;
                self.bars = rest;
                Some(heard)
            }
        }
    }
}
