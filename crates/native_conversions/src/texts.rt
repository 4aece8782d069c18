//! Values as texts.
ghost use Rattle.std.specs.Prelude.{◌≡◌, ◌<◌, ◌*◌, decimal, IfOk, unsigned_abs, true, IfSome, MatchOption, false};
ghost use Rattle.fx8.specs.declared.int_kind.IntKind.TheVariants as kinds;
ghost use Rattle.fx8.specs.Decimals.{text_of};
ghost use Rattle.fx8.specs.Operators.{bits};
ghost use Rattle.mql_meaning.specs.Dates.{has_date};
ghost use Rattle.mql_meaning.specs.Texts as texts;

use crate::dates::moment_text;
use crate::pieces::{decimal_text, joined, widened};
use fx8::{Fix8, IntKind, OutOfMemory, Text, Text8};
use mql_mean::Value;
use std::alloc::Global;

fn whole_text(alloc: Global, number: i128) -> Result<Text, OutOfMemory>
    ensures { IfOk result (λ text. text ≡ texts.whole_text number) }
{
    let digits = decimal_text(alloc, number.unsigned_abs())?;
    if number < 0 {
        joined(Text::new(alloc), 45, digits)
    } else {
        Ok(digits)
    }
}

fn truth_text(alloc: Global, holds: bool) -> Result<Text, OutOfMemory>
    ensures { IfOk result (λ text. text ≡ texts.truth_text holds) }
{
    if holds {
        widened(alloc, b"true")
    } else {
        widened(alloc, b"false")
    }
}

/// The seconds that have a date.
fn dated(second: i128) -> Option<u64>
    ensures some { IfSome result (λ t. has_date second ≡ true) }
    ensures none { MatchOption result (has_date second ≡ false) (λ t. t ≡ unsigned_abs second) }
    ensures small { IfSome result (λ t. t < 376200 * 86400) }
{
    if 0 <= second && second < 376200 * 86400 {
        Some(second as u64)
    } else {
        None
    }
}

fn time_text(alloc: Global, second: i128) -> Result<Text, OutOfMemory>
    ensures { IfOk result (λ text. text ≡ texts.time_text second) }
{
    match dated(second) {
        Some(t) => moment_text(alloc, t),
        None => whole_text(alloc, second),
    }
}

fn color_bits(number: i128) -> u32
    ensures { result ≡ bits kinds.Color number }
{
    number.rem_euclid(4_294_967_296) as u32
}

fn channel_text(alloc: Global, channel: u32) -> Result<Text, OutOfMemory>
    ensures { IfOk result (λ text. text ≡ decimal channel) }
{
    decimal_text(alloc, channel as u128)
}

fn color_text(alloc: Global, color: u32) -> Result<Text, OutOfMemory>
    ensures { IfOk result (λ text. text ≡ texts.color_text color) }
{
    let red = channel_text(alloc, color % 256)?;
    let green = channel_text(alloc, color / 256 % 256)?;
    let blue = channel_text(alloc, color / 65536 % 256)?;
    let green_and_blue = joined(green, 44, blue)?;
    joined(red, 44, green_and_blue)
}

/// The text of a number of a kind (MQL5 Reference, Conversion Functions): a `bool` is `true` or `false`, a
/// `datetime` a date and a time of day where the years 1970 to 2999 have it, a `color` its red, green and blue,
/// any other its decimal digits.
pub fn number_text(alloc: Global, kind: IntKind, number: i128) -> Result<Text, OutOfMemory>
    ensures { IfOk result (λ text. text ≡ texts.number_text kind number) }
{
    match kind {
        IntKind::Bool => truth_text(alloc, number != 0),
        IntKind::Datetime => time_text(alloc, number),
        IntKind::Color => color_text(alloc, color_bits(number)),
        IntKind::Char
        | IntKind::Uchar
        | IntKind::Short
        | IntKind::Ushort
        | IntKind::Int
        | IntKind::Uint
        | IntKind::Long
        | IntKind::Ulong => whole_text(alloc, number),
    }
}

/// The shortest decimal text of a double with at least one decimal.
pub fn double_text(alloc: Global, number: Fix8) -> Result<Text, OutOfMemory>
    ensures { IfOk result (λ text. text ≡ text_of number) }
{
    let mut bytes = Text8::new(alloc);
    number.print(&mut bytes)?;
    widened(alloc, bytes.as_slice())
}

/// The text of a value, as Print writes it; `NULL` is the empty text, another pointer, an array and a structure
/// have none.
pub fn text_of_value(alloc: Global, value: &Value) -> Result<Option<Text>, OutOfMemory>
    ensures { IfOk result (λ text. text ≡ texts.text_of_value value.now) }
{
    match value {
        Value::Num(kind, number) => Ok(Some(number_text(alloc, *kind, *number)?)),
        Value::Dbl(number) => Ok(Some(double_text(alloc, *number)?)),
        Value::Str(text) => Ok(Some(Text::from_slice(alloc, text.as_slice())?)),
        Value::Ptr(0) => Ok(Some(Text::new(alloc))),
        Value::Ptr(_) | Value::Arr(_) | Value::Rec(_) => Ok(None),
    }
}
