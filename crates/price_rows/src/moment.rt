//! Dates and times of a price file, on the calendar of `jiff`.
ghost use Rattle.std.specs.Prelude.{◌≡◌, ◌<◌, ◌≤◌, ◌*◌, pos, ◌*ℤ◌, ◌≤ℤ◌, None, Some, MatchOption, IfSome};
ghost use Rattle.decimals.specs.Texts.{given, provided, parts};
ghost use Rattle.calendar.specs.Days.{is_day, instant};
ghost use Rattle.price_rows.specs.Moments.{three, day_number, day_of, date_of, time_of, clock_of, seconds_of_parts, moment, minutes_of, minute_time, minute};
ghost use Rattle.market_types.specs.Ordered.{IsMoment, IsMinute};

use crate::numbers::whole_of;
use calendar::instant_of;
use decimals::Parts;

/// The three parts of a text round its two separators.
fn three<'a>(text: &'a [u8], separator: u8) -> Option<(&'a [u8], &'a [u8], &'a [u8])>
    ensures { MatchOption result (three (parts separator text.now) ≡ None)
        (λ p. three (parts separator text.now) ≡ Some (p.0.now, p.1.now, p.2.now)) }
{
    let mut parts = Parts::of(text, separator);
    let first = parts.next()?;
    let second = parts.next()?;
    let third = parts.next()?;
    if parts.is_done() {
        Some((first, second, third))
    } else {
        None
    }
}

/// The milliseconds of seconds such as 07 or 07.125.
fn seconds(text: &[u8]) -> Option<u64>
    ensures value { result ≡ seconds_of_parts (parts 46 text.now) }
    ensures within { IfSome result (λ ms. ms < 60000) }
{
    let mut parts = Parts::of(text, b'.');
    let whole = parts.next()?;
    match parts.next() {
        None => {
            let whole = whole_of(2, 59, whole)?;
            Some(whole * 1000)
        }
        Some(fraction) => {
            if !parts.is_done() {
                return None;
            }
            let whole = whole_of(2, 59, whole)?;
            let fraction = whole_of(3, 999, fraction)?;
            Some(whole * 1000 + fraction)
        }
    }
}

/// The milliseconds since midnight of a time.
fn clock_of(hours: &[u8], minutes: &[u8], rest: &[u8]) -> Option<u64>
    ensures value { result ≡ clock_of hours.now minutes.now rest.now }
    ensures within { IfSome result (λ ms. ms < 86400000) }
{
    let hours = whole_of(2, 23, hours)?;
    let minutes = whole_of(2, 59, minutes)?;
    let rest = seconds(rest)?;
    Some(hours * 3_600_000 + minutes * 60_000 + rest)
}

/// The milliseconds since midnight of a time such as 10:00:00 or 10:00:00.100.
fn time_of(time: &[u8]) -> Option<u64>
    ensures value { result ≡ time_of time.now }
    ensures within { IfSome result (λ ms. ms < 86400000) }
{
    let (hours, minutes, seconds) = three(time, b':')?;
    clock_of(hours, minutes, seconds)
}

/// The milliseconds since 1970-01-01 00:00 of a date such as 2020.01.02 and the milliseconds since its
/// midnight.
fn at(date: &[u8], clock_ms: u64) -> Option<i64>
    requires clock { clock_ms < 86400000 }
    ensures value { result ≡ given (date_of date.now) (λ d. Some (instant d clock_ms)) }
    ensures range { IfSome result IsMoment }
{
    let (year, month, day) = three(date, b'.')?;
    let year = whole_of(4, 2999, year)?;
    let month = whole_of(2, 12, month)?;
    let day = whole_of(2, 31, day)?;
    instant_of(year, month, day, clock_ms)
}

/// When a tick came, in milliseconds since 1970-01-01 00:00.
pub(crate) fn moment(date: &[u8], time: &[u8]) -> Option<i64>
    ensures value { result ≡ moment date.now time.now }
    ensures range { IfSome result IsMoment }
{
    let clock_ms = time_of(time)?;
    at(date, clock_ms)
}

/// The minutes since midnight of a time whose seconds are 00.
fn minutes_of(hours: &[u8], minutes: &[u8], seconds: &[u8]) -> Option<u64>
    ensures value { result ≡ minutes_of hours.now minutes.now seconds.now }
    ensures within { IfSome result (λ m. m < 1440) }
{
    let hours = whole_of(2, 23, hours)?;
    let minutes = whole_of(2, 59, minutes)?;
    let _none = whole_of(2, 0, seconds)?;
    Some(hours * 60 + minutes)
}

/// The minutes since midnight of a time such as 10:00:00.
fn minute_time(time: &[u8]) -> Option<u64>
    ensures value { result ≡ minute_time time.now }
    ensures within { IfSome result (λ m. m < 1440) }
{
    let (hours, minutes, seconds) = three(time, b':')?;
    minutes_of(hours, minutes, seconds)
}

/// When a bar opens, in seconds since 1970-01-01 00:00.
pub(crate) fn minute(date: &[u8], time: &[u8]) -> Option<i64>
    ensures value { result ≡ minute date.now time.now }
    ensures range { IfSome result IsMinute }
{
    let minutes = minute_time(time)?;
    let ms = at(date, minutes * 60_000)?;
    Some(ms / 1000)
}
