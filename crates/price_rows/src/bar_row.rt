//! The rows of a bars file.
ghost use Rattle.std.specs.Prelude.{◌≡◌, ◌≤◌, ◌^◌, true, pos, OnOk, IfOk, IfSome};
ghost use Rattle.std.specs.Option.{option_copied};
ghost use Rattle.csv.specs.Records.{fields_of};
ghost use Rattle.market_types.specs.Ordered.{IsBar, IsMinute, greatest_price, IsPrice};
ghost use Rattle.price_rows.specs.Rows.{bar_numbers, is_range, is_later, bar_of, judged_bar};
ghost use Rattle.price_rows.specs.Ranges.{AreBarNumbers};
ghost use Rattle.price_rows.specs.Views.{bar_texts};

use crate::fields::BarFields;
use crate::moment::minute;
use crate::numbers::{fixed, price};
use csv::ByteRecord;
use decimals::whole;
use market_types::Bar;

/// The last row that a file may have: 4,000,000 after the header.
pub(crate) const LAST_ROW: u32 = 4_000_001;

/// The numbers of a bar: prices in units of 10^-8, volumes, and the spread in points.
#[derive(Clone, Copy)]
pub(crate) struct BarNumbers {
    opening: u64,
    high: u64,
    low: u64,
    closing: u64,
    tick_volume: u64,
    volume: u64,
    spread: u32,
}

/// The numbers of a row; `None` exactly where one of them is not of its form or range.
fn numbers_of(fields: BarFields<'_>) -> Option<BarNumbers>
    ensures value { result ≡ bar_numbers (bar_texts fields.entry) }
    ensures ranges { IfSome result AreBarNumbers }
{
    let opening = price(fields.opening)?;
    let high = price(fields.high)?;
    let low = price(fields.low)?;
    let closing = price(fields.closing)?;
    let tick_volume = whole(u64::MAX, fields.tick_volume)?;
    let volume = whole(u64::MAX, fields.volume)?;
    let spread = whole(1_000_000, fields.spread)?;
    Some(BarNumbers {
        opening,
        high,
        low,
        closing,
        tick_volume,
        volume,
        spread: spread as u32,
    })
}

impl BarNumbers {
    /// Whether no high is below and no low above another price of its bar.
    fn is_range(self) -> bool
        ensures { result ≡ is_range self }
    {
        self.opening <= self.high
            && self.closing <= self.high
            && self.low <= self.opening
            && self.low <= self.closing
            && self.low <= self.high
    }

    /// The bar of these numbers.
    fn bar(self, time: i64) -> Bar
        requires time { IsMinute time }
        requires numbers { AreBarNumbers self }
        ensures value { result ≡ bar_of time self }
        ensures ranges { IsBar result }
    {
        Bar {
            time,
            o: fixed(self.opening),
            h: fixed(self.high),
            l: fixed(self.low),
            c: fixed(self.closing),
            tick_volume: self.tick_volume,
            spread: self.spread,
            volume: self.volume,
        }
    }
}

/// Whether a time is after that of the bar before.
fn is_later(before: Option<&Bar>, time: i64) -> bool
    ensures { result ≡ is_later (option_copied before.entry) time }
{
    match before {
        Some(bar) => bar.time < time,
        None => true,
    }
}

/// The bar of a row, or the first rule that it breaks.
#[tactic(auto, unfolding(crate::specs::Rows::judged_bar))]
pub(crate) fn judged_bar(row: u32, before: Option<&Bar>, line: &ByteRecord) -> Result<Bar, u8>
    ensures value { result ≡ judged_bar row (option_copied before.entry) (fields_of line.now) }
    ensures ranges { IfOk result IsBar }
    ensures later { IfOk result (λ bar. is_later (option_copied before.entry) bar.time ≡ true) }
    ensures few { OnOk result (row ≤ 4000001) }
{
    if line.len() != 9 {
        return Err(2);
    }
    let fields = BarFields::of(line);
    let Some(time) = minute(fields.date, fields.time) else {
        return Err(3);
    };
    let Some(numbers) = numbers_of(fields) else {
        return Err(4);
    };
    if !is_later(before, time) {
        return Err(5);
    }
    if !numbers.is_range() {
        return Err(6);
    }
    if row > LAST_ROW {
        return Err(8);
    }
    Ok(numbers.bar(time))
}
