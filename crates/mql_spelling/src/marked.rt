//! The values of dates and colors.
ghost use Rattle.std.specs.Prelude.{◌≡◌, ℕ, ◌+◌, ◌*◌, ◌<◌, ◌≤◌, List, length, IfSome, Some, None, option_map};
ghost use Rattle.mql_spelling.specs.Marked.{pair_end, behind_unit, at_the_end, channel, color_value, digit_pair, day_at, second_at, clock, clock_at, time_at, moment, date_value};

use crate::real::{digits_front, digits_len, digits_rest};
use crate::units::is_digit;
use crate::value::number;
use calendar::second_of;

/// What follows this unit.
#[tactic(auto, unfolding(crate::specs::Marked::behind_unit))]
fn behind_unit(wanted: u16, units: &[u16]) -> Option<&[u16]>
    ensures { option_map (λ rest. rest.now) result ≡ behind_unit wanted units.now }
{
    match units.split_first() {
        Some((unit, others)) => if *unit == wanted { Some(others) } else { None },
        None => None,
    }
}

/// A value where nothing follows.
fn at_the_end(value: u64, rest: &[u16]) -> Option<u64>
    ensures { result ≡ at_the_end value rest.now }
{
    match rest.split_first() {
        Some(_) => None,
        None => Some(value),
    }
}

/// A part of a color, and what follows.
#[tactic(auto, unfolding(crate::specs::Marked::channel))]
fn channel(units: &[u16]) -> Option<(u64, &[u16])>
    ensures value { option_map (λ found. (found.0, found.1.now)) result ≡ channel units.now }
    ensures small { IfSome result (λ found. found.0 ≤ 255) }
{
    if digits_len(units) == 0 {
        return None;
    }
    match number(10, digits_front(units)) {
        Some(value) if value <= 255 => Some((value, digits_rest(units))),
        _ => None,
    }
}

/// The number of a color, by the units between its quotes.
#[tactic(auto, unfolding(crate::specs::Marked::color_value))]
pub fn color_value(units: &[u16]) -> Option<u64>
    ensures { result ≡ color_value units.now }
{
    let (red, rest) = channel(units)?;
    let rest = behind_unit(44, rest)?;
    let (green, rest) = channel(rest)?;
    let rest = behind_unit(44, rest)?;
    let (blue, rest) = channel(rest)?;
    at_the_end(red + 256 * green + 65536 * blue, rest)
}

/// A day as its fields stand in a literal.
#[derive(Clone, Copy)]
pub struct Day {
    pub year: u64,
    pub month: u64,
    pub day: u64,
}

/// Two digits, and what follows.
#[tactic(auto, unfolding(crate::specs::Marked::digit_pair))]
fn digit_pair(units: &[u16]) -> Option<(u64, &[u16])>
    ensures value { option_map (λ found. (found.0, found.1.now)) result ≡ digit_pair units.now }
    ensures small { IfSome result (λ found. found.0 < 100) }
{
    match units.split_first() {
        None => None,
        Some((tens, others)) => match others.split_first() {
            None => None,
            Some((ones, rest)) => {
                if is_digit(*tens) && is_digit(*ones) {
                    Some((10 * u64::from(*tens - 48) + u64::from(*ones - 48), rest))
                } else {
                    None
                }
            }
        },
    }
}

/// Year, month and day, and what follows.
#[tactic(auto, unfolding(crate::specs::Marked::day_at))]
fn day_at(units: &[u16]) -> Option<(Day, &[u16])>
    ensures { option_map (λ found. (found.0, found.1.now)) result ≡ day_at units.now }
{
    let (century, rest) = digit_pair(units)?;
    let (year, rest) = digit_pair(rest)?;
    let rest = behind_unit(46, rest)?;
    let (month, rest) = digit_pair(rest)?;
    let rest = behind_unit(46, rest)?;
    let (day, rest) = digit_pair(rest)?;
    Some((
        Day {
            year: 100 * century + year,
            month,
            day,
        },
        rest,
    ))
}

/// Seconds behind the minutes, or none.
#[tactic(auto, unfolding(crate::specs::Marked::second_at))]
fn second_at(units: &[u16]) -> Option<u64>
    ensures { result ≡ second_at units.now }
{
    match units.split_first() {
        None => Some(0),
        Some((unit, others)) => if *unit == 58 { last_pair(others) } else { None },
    }
}

/// Two digits and nothing more.
#[tactic(auto, unfolding(crate::specs::Marked::pair_end))]
fn last_pair(units: &[u16]) -> Option<u64>
    ensures { result ≡ pair_end units.now }
{
    let (second, rest) = digit_pair(units)?;
    at_the_end(second, rest)
}

/// The seconds of a day at a time of day.
fn clock(hour: u64, minute: u64, second: u64) -> Option<u64>
    ensures value { result ≡ clock hour minute second }
    ensures small { IfSome result (λ seconds. seconds < 86400) }
{
    if hour < 24 && (minute < 60 && second < 60) {
        Some(3600 * hour + 60 * minute + second)
    } else {
        None
    }
}

#[tactic(auto, unfolding(crate::specs::Marked::clock_at))]
fn clock_at(units: &[u16]) -> Option<u64>
    ensures value { result ≡ clock_at units.now }
    ensures small { IfSome result (λ seconds. seconds < 86400) }
{
    let (hour, rest) = digit_pair(units)?;
    let rest = behind_unit(58, rest)?;
    let (minute, rest) = digit_pair(rest)?;
    let second = second_at(rest)?;
    clock(hour, minute, second)
}

/// A blank and the time of day, or nothing.
#[tactic(auto, unfolding(crate::specs::Marked::time_at))]
fn time_at(units: &[u16]) -> Option<u64>
    ensures value { result ≡ time_at units.now }
    ensures small { IfSome result (λ seconds. seconds < 86400) }
{
    match units.split_first() {
        None => Some(0),
        Some((unit, others)) => if *unit == 32 { clock_at(others) } else { None },
    }
}

/// The seconds from the beginning of 1970 to that time of that day.
#[tactic(auto, unfolding(crate::specs::Marked::moment))]
fn moment(day: Day, time: Option<u64>) -> Option<u64>
    requires { IfSome time (λ seconds. seconds < 86400) }
    ensures { result ≡ moment day time }
{
    match time {
        None => None,
        Some(seconds) => second_of(day.year, day.month, day.day, seconds),
    }
}

/// The seconds from the beginning of 1970 to a date, by the units between its quotes.
#[tactic(auto, unfolding(crate::specs::Marked::date_value))]
pub fn date_value(units: &[u16]) -> Option<u64>
    ensures { result ≡ date_value units.now }
{
    let (day, rest) = day_at(units)?;
    moment(day, time_at(rest))
}
