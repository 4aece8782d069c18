//! The rows of a ticks file.
ghost use Rattle.std.specs.Prelude.{◌≡◌, ◌≤◌, ◌≤ℤ◌, true, pos, OnOk, IfOk, IfSome, option_map, ℤ};
ghost use Rattle.std.specs.Option.{option_copied, unwrap_or};
ghost use Rattle.csv.specs.Records.{fields_of};
ghost use Rattle.market_types.specs.Ordered.{IsTick, IsMoment, IsPrice, IsLastPrice};
ghost use Rattle.price_rows.specs.Rows.{if_any, flags_of, tick_numbers, is_in_time, now, tick_of, judged_tick};
ghost use Rattle.price_rows.specs.Numbers.{price, last_price, tick_volume};
ghost use Rattle.price_rows.specs.Ranges.{AreTickNumbers, IsAnyPrice, IsAnyLast, IsAnyVolume};
ghost use Rattle.price_rows.specs.Views.{tick_texts};

use crate::bar_row::LAST_ROW;
use crate::fields::TickFields;
use crate::moment::moment;
use crate::numbers::{fixed, last_price, price, tick_volume};
use csv::ByteRecord;
use decimals::whole;
use fx8::Fix8;
use market_types::Tick;

/// The numbers of a tick, each `None` where it is unchanged, in units of 10^-8 but for the flags.
#[derive(Clone, Copy)]
pub(crate) struct TickNumbers {
    bid: Option<u64>,
    ask: Option<u64>,
    last: Option<u64>,
    volume: Option<u64>,
    flags: u32,
}

/// A price; an empty one is unchanged.
fn price_if_any(text: &[u8]) -> Option<Option<u64>>
    ensures value { result ≡ if_any price text.now }
    ensures range { IfSome result IsAnyPrice }
{
    if text.is_empty() {
        return Some(None);
    }
    let units = price(text)?;
    Some(Some(units))
}

/// A last price; an empty one is unchanged.
fn last_if_any(text: &[u8]) -> Option<Option<u64>>
    ensures value { result ≡ if_any last_price text.now }
    ensures range { IfSome result IsAnyLast }
{
    if text.is_empty() {
        return Some(None);
    }
    let units = last_price(text)?;
    Some(Some(units))
}

/// A volume; an empty one is unchanged.
fn volume_if_any(text: &[u8]) -> Option<Option<u64>>
    ensures value { result ≡ if_any tick_volume text.now }
    ensures range { IfSome result IsAnyVolume }
{
    if text.is_empty() {
        return Some(None);
    }
    let units = tick_volume(text)?;
    Some(Some(units))
}

/// The flags; empty ones are 0.
fn flags_of(text: &[u8]) -> Option<u32>
    ensures { result ≡ flags_of text.now }
{
    if text.is_empty() {
        return Some(0);
    }
    let flags = whole(u32::MAX as u64, text)?;
    Some(flags as u32)
}

/// The numbers of a row; `None` exactly where one of them is not of its form or range.
fn numbers_of(fields: TickFields<'_>) -> Option<TickNumbers>
    ensures value { result ≡ tick_numbers (tick_texts fields.entry) }
    ensures ranges { IfSome result AreTickNumbers }
{
    let bid = price_if_any(fields.bid)?;
    let ask = price_if_any(fields.ask)?;
    let last = last_if_any(fields.last)?;
    let volume = volume_if_any(fields.volume)?;
    let flags = flags_of(fields.flags)?;
    Some(TickNumbers {
        bid,
        ask,
        last,
        volume,
        flags,
    })
}

/// Whether a time is not before that of the tick before.
fn is_in_time(before: Option<&Tick>, time_ms: i64) -> bool
    ensures { result ≡ is_in_time (option_copied before.entry) time_ms }
{
    match before {
        Some(tick) => tick.time_ms <= time_ms,
        None => true,
    }
}

/// Bid: that of the row, else that of the tick before.
fn bid_now(before: Option<&Tick>, units: Option<u64>) -> Option<Fix8>
    requires units { IsAnyPrice units }
    requires before { IfSome (option_copied before) IsTick }
    ensures value { result ≡ now units (option_map (λ b. b.bid) (option_copied before.entry)) }
    ensures range { IfSome result IsPrice }
{
    match units {
        Some(units) => Some(fixed(units)),
        None => match before {
            Some(tick) => Some(tick.bid),
            None => None,
        },
    }
}

/// Ask: that of the row, else that of the tick before.
fn ask_now(before: Option<&Tick>, units: Option<u64>) -> Option<Fix8>
    requires units { IsAnyPrice units }
    requires before { IfSome (option_copied before) IsTick }
    ensures value { result ≡ now units (option_map (λ b. b.ask) (option_copied before.entry)) }
    ensures range { IfSome result IsPrice }
{
    match units {
        Some(units) => Some(fixed(units)),
        None => match before {
            Some(tick) => Some(tick.ask),
            None => None,
        },
    }
}

/// The last price: that of the row, else that of the tick before, at first 0.
fn last_now(before: Option<&Tick>, units: Option<u64>) -> Fix8
    requires units { IsAnyLast units }
    requires before { IfSome (option_copied before) IsTick }
    ensures value { result ≡ unwrap_or (now units (option_map (λ b. b.last) (option_copied before.entry)))
        (pos 0) }
    ensures range { IsLastPrice result }
{
    match units {
        Some(units) => fixed(units),
        None => match before {
            Some(tick) => tick.last,
            None => fixed(0),
        },
    }
}

/// The volume: that of the row, else that of the tick before, at first 0.
fn volume_now(before: Option<&Tick>, units: Option<u64>) -> Fix8
    requires units { IsAnyVolume units }
    requires before { IfSome (option_copied before) IsTick }
    ensures value { result ≡ unwrap_or (now units (option_map (λ b. b.volume) (option_copied before.entry)))
        (pos 0) }
    ensures range { pos 0 ≤ℤ result }
{
    match units {
        Some(units) => fixed(units),
        None => match before {
            Some(tick) => tick.volume,
            None => fixed(0),
        },
    }
}

/// The tick of a time, its prices and its numbers.
fn tick_of(before: Option<&Tick>, time_ms: i64, bid: Fix8, ask: Fix8, numbers: TickNumbers) -> Tick
    requires before { IfSome (option_copied before) IsTick }
    requires time { IsMoment time_ms }
    requires bid { IsPrice bid }
    requires ask { IsPrice ask }
    requires numbers { AreTickNumbers numbers }
    ensures value { result ≡ tick_of (option_copied before.entry) time_ms bid ask numbers }
    ensures ranges { IsTick result }
{
    Tick {
        time_ms,
        bid,
        ask,
        last: last_now(before, numbers.last),
        volume: volume_now(before, numbers.volume),
        flags: numbers.flags,
    }
}

/// The tick of a row, or the first rule that it breaks.
#[tactic(auto, unfolding(crate::specs::Rows::judged_tick))]
pub(crate) fn judged_tick(
    width: usize,
    row: u32,
    before: Option<&Tick>,
    line: &ByteRecord,
) -> Result<Tick, u8>
    requires { IfSome (option_copied before) IsTick }
    ensures value { result ≡ judged_tick width row (option_copied before.entry) (fields_of line.now) }
    ensures ranges { IfOk result IsTick }
    ensures in_time { IfOk result (λ tick. is_in_time (option_copied before.entry) tick.time_ms ≡ true) }
    ensures few { OnOk result (row ≤ 4000001) }
{
    if line.len() != width {
        return Err(2);
    }
    let fields = TickFields::of(line);
    let Some(time_ms) = moment(fields.date, fields.time) else {
        return Err(3);
    };
    let Some(numbers) = numbers_of(fields) else {
        return Err(4);
    };
    if !is_in_time(before, time_ms) {
        return Err(5);
    }
    let Some(bid) = bid_now(before, numbers.bid) else {
        return Err(7);
    };
    let Some(ask) = ask_now(before, numbers.ask) else {
        return Err(7);
    };
    if row > LAST_ROW {
        return Err(8);
    }
    Ok(tick_of(before, time_ms, bid, ask, numbers))
}
