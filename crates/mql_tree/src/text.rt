//! The text of a file of bytes.
ghost use Rattle.std.specs.Prelude.{◌≡◌, ◌+◌, ◌^◌, ◌<◌, ◌≤◌, ◌++◌, length, take, drop, OnOk, OnErr, IfOk, IfSome, IsUtf8, chars};
ghost use Rattle.std.specs.Prelude.{flat_map};
ghost use Rattle.std.specs.Str.Lossy.{utf8_valid_len};
ghost use Rattle.std.specs.Char.Escape.{encode_utf16};
ghost use Rattle.std.specs.Char.Utf16.{is_low_surrogate, is_high_surrogate};
ghost use Rattle.mql_tree.specs.Text.{units_of, utf8_text, utf16_text, text_of, le_units, is_odd, front_len, lone_from, is_surrogate, lone_or_long, Answers};
ghost use Rattle.mql_source.specs.Limits.{most_units};

use fx8::{OutOfMemory, Text};
use mql_source::MOST_UNITS;
use std::alloc::Global;
use std::str;
use thiserror::Error;

/// Why bytes are no text. A place is that of a byte of the file.
#[derive(Clone, Copy, Debug, PartialEq, Eq, Error)]
pub enum TextFault {
    /// The bytes are no UTF-8 from that place on.
    #[error("no UTF-8 at byte {0}")]
    NotUtf8(u64),
    /// In UTF-16 a byte is left over.
    #[error("an odd number of bytes")]
    OddLength,
    /// A surrogate at that place has no partner.
    #[error("a surrogate without its partner at byte {0}")]
    LoneSurrogate(u64),
    /// There are more than 1,048,576 units.
    #[error("the text is too long")]
    TooLong,
    /// There was no memory.
    #[error("out of memory")]
    OutOfMemory,
}

impl From<OutOfMemory> for TextFault {
    ghost use Rattle.std.specs.Prelude.{◌≡◌};
    ghost use Rattle.mql_tree.specs.declared.text.TextFault.TheVariants as faults;

    ghost from_gives = { λ _ e. e ≡ faults.OutOfMemory };

    fn from(_error: OutOfMemory) -> TextFault {
        TextFault::OutOfMemory
    }
}

/// The items from a place on.
fn rest_from<T: Copy>(items: &[T], place: usize) -> &[T]
    requires { place ≤ length items.now }
    ensures { result.now ≡ drop place items.now }
{
    items.split_at(place).1
}

/// Adds the units of a character.
fn push_char(text: &mut Text, c: char) -> Result<(), OutOfMemory>
    ensures ok { OnOk result (text.new ≡ text.old ++ encode_utf16 c) }
{
    let mut pair = [0u16; 2];
    text.extend_from_slice(c.encode_utf16(&mut pair))
}

/// The units of a text.
fn units_of(alloc: Global, from: &str) -> Result<Text, OutOfMemory>
    ensures { IfOk result (λ text. text ≡ units_of (chars from.now)) }
{
    let mut text = Text::new(alloc);
    for c in from.chars() {
        push_char(&mut text, c)?;
    }
    Ok(text)
}

/// How many bytes at the beginning are UTF-8.
fn valid_len(bytes: &[u8]) -> usize
    ensures value { result ≡ utf8_valid_len bytes.now }
    ensures within { result ≤ length bytes.now }
    ensures valid { IsUtf8 (take result bytes.now) }
{
    match str::from_utf8(bytes) {
        Ok(_) => bytes.len(),
        Err(error) => error.valid_up_to(),
    }
}

/// The text of bytes in UTF-8 that stand behind a mark of so many bytes.
#[tactic(auto, unfolding(crate::specs::Text::utf8_text))]
fn utf8_text(alloc: Global, mark: u64, bytes: &[u8]) -> Result<Text, TextFault>
    requires { mark ≤ 3 }
    ensures exact { Answers result (utf8_text mark bytes.now) }
    ensures few { IfOk result (λ text. length text ≤ most_units) }
{
    let valid = valid_len(bytes);
    let Ok(text) = str::from_utf8(&bytes[..valid]) else {
        unreachable!()
    };
    let units = units_of(alloc, text)?;
    if units.len() > MOST_UNITS {
        return Err(TextFault::TooLong);
    }
    if valid < bytes.len() {
        return Err(TextFault::NotUtf8(mark + valid as u64));
    }
    Ok(units)
}

/// The whole units of bytes, the low byte first.
fn le_units(alloc: Global, bytes: &[u8]) -> Result<Text, OutOfMemory>
    ensures { IfOk result (λ units. units ≡ le_units bytes.now) }
{
    let mut units = Text::new(alloc);
    let mut rest = bytes;
    while let [low, high, more @ ..] = rest {
        units.push(u16::from(*low) + 256 * u16::from(*high))?;
        rest = more;
    }
    Ok(units)
}

/// Whether a byte is left over.
fn is_odd(bytes: &[u8]) -> bool
    ensures { result ≡ is_odd bytes.now }
{
    let mut rest = bytes;
    while let [_, _, more @ ..] = rest {
        rest = more;
    }
    !rest.is_empty()
}

fn is_high(unit: u16) -> bool
    ensures { result ≡ is_high_surrogate unit }
{
    0xD800 <= unit && unit < 0xDC00
}

fn is_low(unit: u16) -> bool
    ensures { result ≡ is_low_surrogate unit }
{
    0xDC00 <= unit && unit < 0xE000
}

fn is_surrogate(unit: u16) -> bool
    ensures { result ≡ is_surrogate unit }
{
    is_high(unit) || is_low(unit)
}

/// How many units the character at the front has; 0 where a surrogate stands there without its partner.
fn front_len(units: &[u16]) -> usize
    ensures value { result ≡ front_len units.now }
    ensures within { result ≤ length units.now }
{
    match units {
        [] => 0,
        [first] => if is_surrogate(*first) { 0 } else { 1 },
        [first, second, ..] => {
            if is_high(*first) && is_low(*second) {
                2
            } else if is_surrogate(*first) {
                0
            } else {
                1
            }
        }
    }
}

/// The place of the first surrogate that has no partner.
fn first_lone(units: &[u16]) -> Option<u64>
    ensures { result ≡ lone_from 0 units.now }
{
    let mut rest = units;
    let mut place = 0u64;
    while rest.len() > 0 {
        let count = front_len(rest);
        if count == 0 {
            return Some(place);
        }
        rest = rest_from(rest, count);
        place += count as u64;
    }
    None
}

/// The text of bytes in UTF-16 that stand behind their mark.
#[tactic(auto, unfolding(crate::specs::Text::utf16_text))]
fn utf16_text(alloc: Global, bytes: &[u8]) -> Result<Text, TextFault>
    ensures exact { Answers result (utf16_text bytes.now) }
    ensures few { IfOk result (λ text. length text ≤ most_units) }
{
    let units = le_units(alloc, bytes)?;
    match first_lone(units.as_slice()) {
        Some(place) if place > MOST_UNITS => Err(TextFault::TooLong),
        Some(place) => Err(TextFault::LoneSurrogate(2 + 2 * place)),
        None if units.len() > MOST_UNITS => Err(TextFault::TooLong),
        None if is_odd(bytes) => Err(TextFault::OddLength),
        None => Ok(units),
    }
}

/// The text of a file: behind the mark FF FE it is UTF-16 with the low byte first, else UTF-8, of which a
/// mark EF BB BF is dropped. A text has at most 1,048,576 units; the first fault in the bytes is told.
pub fn text_of_bytes(alloc: Global, bytes: &[u8]) -> Result<Text, TextFault>
    ensures exact { Answers result (text_of bytes.now) }
    ensures few { IfOk result (λ text. length text ≤ most_units) }
{
    if bytes.starts_with(&[255, 254]) {
        return utf16_text(alloc, rest_from(bytes, 2));
    }
    if bytes.starts_with(&[239, 187, 191]) {
        return utf8_text(alloc, 3, rest_from(bytes, 3));
    }
    utf8_text(alloc, 0, bytes)
}
