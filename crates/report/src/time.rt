//! How a time is written.
ghost use Rattle.std.specs.Prelude.{◌≡◌, pos, [], ◌∷◌, ◌++◌, ◌+◌, ◌/◌, ◌%◌, ◌<◌, ◌≤ℤ◌, ◌<ℤ◌, ◌*ℤ◌, OnOk};
ghost use Rattle.jiff.specs.Words.{civil_nanos};
ghost use Rattle.report.specs.Times.{two_digits, three_digits, four_digits, date_text, clock_text, IsTimeText};
ghost use Rattle.report.specs.Pieces.{Appends};

use fx8::{OutOfMemory, Text8};
use jiff::Timestamp;
use jiff::civil::{Date, DateTime, Time};
use jiff::tz::Offset;

/// The first millisecond of the year 3000.
pub const END_OF_TIMES: i64 = 32_503_680_000_000;

fn digit(place: u32, number: u32) -> u8
    requires { 0 < place }
    ensures { result ≡ 48 + number / place % 10 }
{
    48 + (number / place % 10) as u8
}

#[tactic(auto, unfolding(crate::specs::Times::two_digits))]
fn push_two_digits(text: &mut Text8, number: u32) -> Result<(), OutOfMemory>
    ensures { OnOk result (text.new ≡ text.old ++ two_digits number) }
{
    text.extend_from_slice(&[digit(10, number), digit(1, number)])
}

#[tactic(auto, unfolding(crate::specs::Times::three_digits, crate::specs::Times::two_digits))]
fn push_three_digits(text: &mut Text8, number: u32) -> Result<(), OutOfMemory>
    ensures { OnOk result (text.new ≡ text.old ++ three_digits number) }
{
    text.extend_from_slice(&[digit(100, number), digit(10, number), digit(1, number)])
}

#[tactic(auto, unfolding(crate::specs::Times::four_digits))]
fn push_four_digits(text: &mut Text8, number: u32) -> Result<(), OutOfMemory>
    ensures { OnOk result (text.new ≡ text.old ++ four_digits number) }
{
    text.push(digit(1000, number))?;
    push_three_digits(text, number)
}

#[tactic(auto, unfolding(crate::specs::Times::date_text))]
fn push_date(text: &mut Text8, date: Date) -> Result<(), OutOfMemory>
    ensures { OnOk result (text.new ≡ text.old ++ date_text date) }
{
    push_four_digits(text, u32::from(date.year().unsigned_abs()))?;
    text.push(b'.')?;
    push_two_digits(text, u32::from(date.month().unsigned_abs()))?;
    text.push(b'.')?;
    push_two_digits(text, u32::from(date.day().unsigned_abs()))
}

#[tactic(auto, unfolding(crate::specs::Times::clock_text))]
fn push_clock(text: &mut Text8, time: Time) -> Result<(), OutOfMemory>
    ensures { OnOk result (text.new ≡ text.old ++ clock_text time) }
{
    push_two_digits(text, u32::from(time.hour().unsigned_abs()))?;
    text.push(b':')?;
    push_two_digits(text, u32::from(time.minute().unsigned_abs()))?;
    text.push(b':')?;
    push_two_digits(text, u32::from(time.second().unsigned_abs()))?;
    text.push(b'.')?;
    push_three_digits(text, time.subsec_nanosecond().unsigned_abs() / 1_000_000)
}

/// The date and time of day, in UTC, of milliseconds since 1970-01-01 00:00.
fn civil_of(time_ms: i64) -> DateTime
    requires from { pos 0 ≤ℤ time_ms }
    requires to { time_ms ≤ℤ pos 32503679999999 }
    ensures { civil_nanos result ≡ time_ms *ℤ pos 1000000 }
{
    match Timestamp::from_millisecond(time_ms) {
        Ok(at) => Offset::UTC.to_datetime(at),
        Err(_) => DateTime::MIN,
    }
}

/// Adds a time in milliseconds since 1970, as `2020.01.02 10:00:00.000`. It asks for a time of the years 1970
/// to 2999.
#[tactic(auto, using(crate::proofs::Written::time_written))]
pub fn push_time(text: &mut Text8, time_ms: i64) -> Result<(), OutOfMemory>
    requires from_1970 { pos 0 ≤ℤ time_ms }
    requires to_2999 { time_ms <ℤ END_OF_TIMES }
    ensures { OnOk result (Appends (IsTimeText time_ms) text.old text.new) }
{
    let at = civil_of(time_ms);
    push_date(text, at.date())?;
    text.push(b' ')?;
    push_clock(text, at.time())
}
