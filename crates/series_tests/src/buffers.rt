//! Series over worked bars.
ghost use Rattle.std.specs.Prelude.{◌≡◌, ◌≤◌, ◌^◌, length, All, IfOk, IfSome};
ghost use Rattle.market_types.specs.declared.quote.Quote.{Quote};
ghost use Rattle.market_data.specs.Quotes.{IsQuote};
ghost use Rattle.series.specs.Bars.{lots};

use crate::worked::{BUFFERS, Buffer, CLOSES, OF_CLOSES, PRICES};
use fx8::{Fix8, FixList, Money, OutOfMemory, Text8};
use market_types::{BarList, Period, Quote, Specs, SymbolSpec};
use series::{Series, SeriesFault, few_quotes_fit};
use std::alloc::Global;
use std::test::Fail;

/// A quote of the first symbol, where time and price are in range.
fn quote_at(seconds: i64, price: i64) -> Option<Quote>
    ensures { IfSome result (λ (q : Quote). IsQuote q × (q.symbol ≡ 0) × (lots q ≤ 2 ^ 63)) }
{
    if seconds < 0 || seconds > 32_503_679_999 || price <= 0 || price > 1_000_000_000_000_000 {
        return None;
    }
    Some(Quote {
        symbol: 0,
        time_ms: seconds * 1000,
        bid: Fix8::of_units(price),
        ask: Fix8::of_units(price + 7_000),
        last: Fix8::of_units(0),
        volume: Fix8::of_units(0),
        flags: 6,
        loud: true,
    })
}

/// Quotes of the first symbol at these seconds and prices; none where one is out of range.
fn quotes_of(alloc: Global, prices: &[(i64, i64)]) -> Result<Vec<Quote>, OutOfMemory>
    ensures { IfOk result (λ quotes. All (λ (q : Quote). IsQuote q × (q.symbol ≡ 0) × (lots q ≤ 2 ^ 63)) quotes.items) }
{
    let mut quotes = Vec::new(alloc);
    for price in prices {
        match quote_at(price.0, price.1) {
            Some(quote) => quotes.push(quote)?,
            None => return Ok(Vec::new(alloc)),
        }
    }
    Ok(quotes)
}

/// A symbol of five digits.
fn symbol(alloc: Global) -> SymbolSpec {
    SymbolSpec {
        name: Text8::new(alloc),
        file: Text8::new(alloc),
        digits: 5,
        contract: 100_000,
        volume_min: Fix8::of_units(1),
        volume_max: Fix8::of_units(1),
        volume_step: Fix8::of_units(1),
        stops_level: 0,
        spread: None,
        commission: Money::of_cents(0),
        swap_long: Money::of_cents(0),
        swap_short: Money::of_cents(0),
        swap_day: 3,
    }
}

/// A series of one symbol that has taken some quotes.
fn series_of(alloc: Global, quotes: &[Quote]) -> Result<Series, OutOfMemory>
    requires few { length quotes.now ≤ 10 ^ 8 }
    requires quotes { All (λ (q : Quote). IsQuote q × (q.symbol ≡ 0) × (lots q ≤ 2 ^ 63)) quotes.now }
{
    let mut specs = Specs::new(alloc);
    specs.push(symbol(alloc))?;
    let mut series = Series::new(alloc, &specs)?;
    few_quotes_fit();
    for quote in quotes {
        series.push(quote)?;
    }
    Ok(series)
}

/// The digest of values.
fn digest(values: &FixList) -> u64 {
    let mut sum = 0u64;
    for value in values.as_slice() {
        sum = sum
            .wrapping_mul(1_000_003)
            .wrapping_add(value.units().unsigned_abs());
    }
    sum
}

/// Whether a series has these buffers, and no bar more.
fn has_buffers(
    alloc: Global,
    series: &mut Series,
    buffers: &[Buffer],
) -> Result<bool, SeriesFault> {
    let mut values = FixList::new(alloc);
    for buffer in buffers {
        let number = series.indicator(buffer.spec)?;
        series.copy_buffer(number, 0, buffer.count, &mut values)?;
        if digest(&values) != buffer.digest || series.bars(0, buffer.spec.period) != buffer.count {
            return Ok(false);
        }
    }
    Ok(true)
}

/// Whether a series of these quotes has these buffers.
fn agrees(alloc: Global, prices: &[(i64, i64)], buffers: &[Buffer]) -> Result<bool, SeriesFault> {
    let quotes = quotes_of(alloc, prices)?;
    if quotes.len() > 1_000 {
        return Ok(false);
    }
    let mut series = series_of(alloc, quotes.as_slice())?;
    has_buffers(alloc, &mut series, buffers)
}

#[test]
fn buffers_over_worked_bars(rt: HostRuntime) -> Result<(), Fail> {
    assert!(rt; agrees(rt.alloc(), &PRICES, &BUFFERS)?);
    Ok(())
}

#[test]
fn buffers_over_three_closes(rt: HostRuntime) -> Result<(), Fail> {
    assert!(rt; agrees(rt.alloc(), &CLOSES, &OF_CLOSES)?);
    Ok(())
}

/// Whether the two newest bars of three closes are told, the older first.
fn tells_two_bars(alloc: Global) -> Result<bool, SeriesFault> {
    let quotes = quotes_of(alloc, &CLOSES)?;
    if quotes.len() > 1_000 {
        return Ok(false);
    }
    let series = series_of(alloc, quotes.as_slice())?;
    let mut bars = BarList::new(alloc);
    series.copy(0, Period::M1, 0, 2, &mut bars)?;
    match bars.as_slice() {
        [older, newer] => Ok(older.c.units() == 200_000_000 && newer.c.units() == 400_000_000),
        _ => Ok(false),
    }
}

#[test]
fn bars_of_three_closes(rt: HostRuntime) -> Result<(), Fail> {
    assert!(rt; tells_two_bars(rt.alloc())?);
    Ok(())
}
