//! Days of the calendar and times of day, and their texts.
ghost use Rattle.std.specs.Prelude.{◌≡◌, ◌≤◌, ◌<◌, ◌+◌, ◌*◌, IfOk, pos};
ghost use Rattle.jiff_core.specs.Calendar as calendar;
ghost use Rattle.mql_meaning.specs.Dates as dates;
ghost use Rattle.native_conversions.specs.Days.{date_of};

use crate::pieces::{four_digits, joined, two_digits};
use fx8::{OutOfMemory, Text};
use jiff_core::civil::{days_in_month, days_in_year};
use std::alloc::Global;

/// A day of the calendar.
#[derive(Clone, Copy, Debug, PartialEq, Eq)]
pub struct Day {
    pub year: u32,
    /// From 1 on.
    pub month: u32,
    /// The day of the month, from 1 on.
    pub day: u32,
    /// From 0 on.
    pub day_of_year: u32,
}

/// The month and the day of a day of a year, which is so many days behind the first of a month, in it or one of
/// so many months behind it.
#[tactic(auto, using(crate::proofs::Calendar::month_here, crate::proofs::Calendar::month_next, crate::proofs::Calendar::month_end))]
fn in_month(months: u32, year: u32, day_of_year: u32, first: u32, days: u32) -> Day
    requires year { year ≤ 3000 }
    requires months { first + months ≤ 12 }
    requires days { days ≤ 400000 }
    ensures { date_of result ≡ dates.in_month months year day_of_year first days }
{
    let mut left = months;
    let mut month = first;
    let mut rest = days;
    while left > 0 {
        let length = u32::from(days_in_month(year as i16, month as u8));
        if rest < length {
            return Day {
                year,
                month,
                day: rest + 1,
                day_of_year,
            };
        }
        rest -= length;
        month += 1;
        left -= 1;
    }
    Day {
        year,
        month,
        day: rest + 1,
        day_of_year,
    }
}

/// The number of days of a year.
fn length_of_year(year: u32) -> u32
    requires { year ≤ 3000 }
    ensures { result ≡ calendar.days_in_year (pos year) }
{
    u32::from(days_in_year(year as i16))
}

/// The day that is so many days after the first day of a year, which is in one of at most so many years.
#[tactic(auto, using(crate::proofs::Calendar::year_here, crate::proofs::Calendar::year_next, crate::proofs::Calendar::year_end))]
fn in_year(years: u32, first: u32, days: u32) -> Day
    requires years { first + years ≤ 3000 }
    requires days { days ≤ 400000 }
    ensures { date_of result ≡ dates.in_year years first days }
{
    let mut left = years;
    let mut year = first;
    let mut rest = days;
    while left > 0 {
        let length = length_of_year(year);
        if rest < length {
            return in_month(11, year, rest, 1, rest);
        }
        rest -= length;
        year += 1;
        left -= 1;
    }
    in_month(11, year, rest, 1, rest)
}

/// The day of a day number of the years 1970 to 2999; day 0 is 1970.01.01.
pub fn date(day: u32) -> Day
    requires { day < 376200 }
    ensures { date_of result ≡ dates.date day }
{
    in_year(1029, 1970, day)
}

fn date_text(alloc: Global, day: Day) -> Result<Text, OutOfMemory>
    ensures { IfOk result (λ text. text ≡ dates.date_text (date_of day)) }
{
    let month = two_digits(alloc, day.month)?;
    let month_and_day = joined(month, 46, two_digits(alloc, day.day)?)?;
    joined(four_digits(alloc, day.year)?, 46, month_and_day)
}

fn day_text(alloc: Global, second: u64) -> Result<Text, OutOfMemory>
    requires { second < 376200 * 86400 }
    ensures { IfOk result (λ text. text ≡ dates.day_text second) }
{
    let day = date((second / 86400) as u32);
    date_text(alloc, day)
}

fn minute_text(alloc: Global, second: u64) -> Result<Text, OutOfMemory>
    ensures { IfOk result (λ text. text ≡ dates.minute_text second) }
{
    let hours = two_digits(alloc, (second / 3600 % 24) as u32)?;
    let minutes = two_digits(alloc, (second / 60 % 60) as u32)?;
    joined(hours, 58, minutes)
}

fn second_text(alloc: Global, second: u64) -> Result<Text, OutOfMemory>
    ensures { IfOk result (λ text. text ≡ dates.second_text second) }
{
    let front = minute_text(alloc, second)?;
    let seconds = two_digits(alloc, (second % 60) as u32)?;
    joined(front, 58, seconds)
}

/// A date and a time of day, as `yyyy.mm.dd hh:mm:ss`, of seconds since 1970.01.01 00:00.
pub fn moment_text(alloc: Global, second: u64) -> Result<Text, OutOfMemory>
    requires { second < 376200 * 86400 }
    ensures { IfOk result (λ text. text ≡ dates.moment_text second) }
{
    let day = day_text(alloc, second)?;
    let time = second_text(alloc, second)?;
    joined(day, 32, time)
}
