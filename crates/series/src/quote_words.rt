//! What a quote adds to a bar.
ghost use Rattle.std.specs.Prelude.{◌≡◌, ◌<◌, ◌≤◌, ◌+◌, ◌*◌, ◌/◌, ◌^◌, pos, unsigned_abs};
ghost use Rattle.std.specs.Int.{int_max, int_min};
ghost use Rattle.market_data.specs.Quotes.{point, IsQuote};
ghost use Rattle.indicators.specs.Prices.{IsPriced};
ghost use Rattle.series.specs.Bars.{opens, spread, lots};
ghost use Rattle.series.specs.Pushed.{opened, grown};

use fx8::{Fix8, unit_of_place};
use market_types::{Bar, Period, Quote};

/// A point in units of 10^-8.
fn point(digits: u8) -> u64
    ensures value { result ≡ point digits }
    ensures some { 1 ≤ result }
{
    unit_of_place(digits)
}

/// When the bar of a quote opens, in seconds.
pub(crate) fn opens(period: Period, quote: &Quote) -> u64
    ensures value { result ≡ opens period quote.now }
    ensures most { result < 2 ^ 63 }
{
    let seconds = quote.time_ms.unsigned_abs() / 1000;
    let length = period.seconds() as u64;
    seconds / length * length
}

/// Ask above Bid in whole points.
fn spread(digits: u8, quote: &Quote) -> u32
    ensures { result ≡ spread digits quote.now }
{
    let ask = quote.ask.units().unsigned_abs();
    let bid = quote.bid.units().unsigned_abs();
    let points = ask.saturating_sub(bid) / point(digits);
    points.min(4_294_967_295) as u32
}

/// What is traded with a quote, in units of 10^-8.
pub(crate) fn lots(quote: &Quote) -> u64
    ensures { result ≡ lots quote.now }
{
    quote.volume.units().unsigned_abs()
}

/// The bar that begins with a quote.
pub(crate) fn opened(period: Period, digits: u8, quote: &Quote) -> Bar
    requires { IsQuote quote.now }
    ensures value { result ≡ opened period digits quote.now }
    ensures priced { IsPriced result }
{
    Bar {
        time: opens(period, quote) as i64,
        o: quote.bid,
        h: quote.bid,
        l: quote.bid,
        c: quote.bid,
        tick_volume: 1,
        spread: spread(digits, quote),
        volume: lots(quote) / 100_000_000,
    }
}

/// The greater of two prices.
fn greater(a: Fix8, b: Fix8) -> Fix8
    ensures { result ≡ int_max a b }
{
    Fix8::of_units(a.units().max(b.units()))
}

/// The lesser of two prices.
fn lesser(a: Fix8, b: Fix8) -> Fix8
    ensures { result ≡ int_min a b }
{
    Fix8::of_units(a.units().min(b.units()))
}

/// A bar with one more quote, where so much is then traded.
#[tactic(auto, using(crate::proofs::Priced::greater_priced, crate::proofs::Priced::lesser_priced))]
pub(crate) fn grown(digits: u8, bar: &Bar, quote: &Quote, traded: u128) -> Bar
    requires quote { IsQuote quote.now }
    requires bar { IsPriced bar.now }
    requires ticks { bar.now.tick_volume + 1 < 2 ^ 64 }
    requires volume { traded / 10 ^ 8 < 2 ^ 64 }
    ensures value { result ≡ grown digits bar.now quote.now traded }
    ensures priced { IsPriced result }
{
    Bar {
        time: bar.time,
        o: bar.o,
        h: greater(bar.h, quote.bid),
        l: lesser(bar.l, quote.bid),
        c: quote.bid,
        tick_volume: bar.tick_volume + 1,
        spread: spread(digits, quote),
        volume: (traded / 100_000_000) as u64,
    }
}
