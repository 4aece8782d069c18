//! The instants of days and of times of day.
ghost use Rattle.std.specs.Prelude.{◌≡◌, ◌<◌, pos, None, Some, IfSome, if◌then◌else◌};
ghost use Rattle.jiff.specs.Words.{civil_nanos, epoch_day};
ghost use Rattle.jiff_core.specs.Calendar.{days_from_civil};
ghost use Rattle.market_types.specs.Ordered.{IsMoment};
ghost use Rattle.calendar.specs.Days.{is_day, instant, second, IsDayNumber};

use jiff::civil::{Date, Time};
use jiff::tz::Offset;

/// The milliseconds since 1970.01.01 00:00 of a day of the years 1970 to 2999 and the milliseconds since its
/// midnight; `None` exactly where the calendar has no such day in these years.
pub fn instant_of(year: u64, month: u64, day: u64, clock_ms: u64) -> Option<i64>
    requires { clock_ms < 86400000 }
    ensures value { result ≡ (if is_day year month day
        then Some (instant (days_from_civil (pos year) month day) clock_ms) else None) }
    ensures range { IfSome result IsMoment }
{
    if year < 1970 {
        return None;
    }
    if year > 2999 {
        return None;
    }
    if month > 12 {
        return None;
    }
    if day > 31 {
        return None;
    }
    let Ok(date) = Date::new(year as i16, month as i8, day as i8) else {
        return None;
    };
    Some(instant_on(date, clock_ms))
}

/// The milliseconds since 1970.01.01 00:00 of a date of the years 1970 to 2999 and a time of day.
fn instant_on(date: Date, clock_ms: u64) -> i64
    requires day { IsDayNumber (epoch_day date) }
    requires clock { clock_ms < 86400000 }
    ensures { result ≡ instant (epoch_day date) clock_ms }
{
    let seconds = clock_ms / 1000;
    let hour = (seconds / 3600) as i8;
    let minute = (seconds / 60 % 60) as i8;
    let second = (seconds % 60) as i8;
    let nanos = (clock_ms % 1000 * 1_000_000) as i32;
    let Ok(time) = Time::new(hour, minute, second, nanos) else {
        return 0;
    };
    let Ok(at) = Offset::UTC.to_timestamp(date.to_datetime(time)) else {
        return 0;
    };
    at.as_millisecond()
}

/// The seconds since 1970.01.01 00:00 of a day of the years 1970 to 2999 and the seconds since its midnight;
/// `None` exactly where the calendar has no such day in these years.
pub fn second_of(year: u64, month: u64, day: u64, clock: u64) -> Option<u64>
    requires { clock < 86400 }
    ensures { result ≡ (if is_day year month day
        then Some (second (days_from_civil (pos year) month day) clock) else None) }
{
    let ms = instant_of(year, month, day, 1000 * clock)?;
    Some(ms as u64 / 1000)
}
