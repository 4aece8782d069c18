//! What conversions write.
ghost use Rattle.std.specs.Prelude.{◌≡◌, ◌≤◌, ◌+◌, ◌-◌, ◌%◌, ◌&&◌, ◌++◌, [], nat_lt, reverse, IfOk, length};
ghost use Rattle.mql_meaning.specs.Changes.{either};
ghost use Rattle.mql_meaning.specs.Formats.{sign, in_width, at_least, is_free, integer, hex, precision_or, real, cut};
ghost use Rattle.native_formats.specs.Forms.{form_of};

use crate::conversion::Conversion;
use fx8::{Fix8, ItemList, OutOfMemory, Text};
use native_strings::{padded, part_of, places_of, point_text};
use std::alloc::Global;

/// The sign that a number is written with: `-` below zero, else `+` where the conversion asks for it.
pub fn sign(alloc: Global, form: Conversion, number: i128) -> Result<Text, OutOfMemory>
    ensures { IfOk result (λ t. t ≡ sign (form_of form []) number) }
{
    let mut text = ItemList::new(alloc);
    if number < 0 {
        text.push(45)?;
        return Ok(text);
    }
    if form.plus {
        text.push(43)?;
    }
    Ok(text)
}

/// Two texts, one behind the other.
fn joined(alloc: Global, first: &[u16], second: &[u16]) -> Result<Text, OutOfMemory>
    ensures { IfOk result (λ t. t ≡ first.now ++ second.now) }
{
    let mut text = ItemList::from_slice(alloc, first)?;
    text.extend_from_slice(second)?;
    Ok(text)
}

/// How many of a width are left behind so many units.
fn left_of(width: u32, sign: &[u16]) -> u128
    ensures { result ≡ width - length sign.now }
{
    (width as u128).saturating_sub(sign.len() as u128)
}

/// A sign and digits in the width: zeros stand behind the sign.
pub fn in_width(
    alloc: Global,
    form: Conversion,
    zeros: bool,
    sign: &[u16],
    digits: &[u16],
) -> Result<Text, OutOfMemory>
    ensures { IfOk result (λ t. t ≡ in_width (form_of form []) zeros sign.now digits.now) }
{
    if zeros && !form.left {
        let filled = padded(alloc, false, left_of(form.width, sign), 48, digits)?;
        return joined(alloc, sign, filled.as_slice());
    }
    let text = joined(alloc, sign, digits)?;
    padded(alloc, form.left, form.width as u128, 32, text.as_slice())
}

/// At least as many digits as the precision says.
fn at_least(alloc: Global, precision: Option<u8>, digits: &[u16]) -> Result<Text, OutOfMemory>
    ensures { IfOk result (λ t. t ≡ at_least precision digits.now) }
{
    match precision {
        None => ItemList::from_slice(alloc, digits),
        Some(count) => padded(alloc, false, count as u128, 48, digits),
    }
}

/// Whether zeros fill the width of a whole number: the conversion asks for it and has no precision.
fn fills_with_zeros(form: Conversion) -> bool
    ensures { result ≡ (form.zeros && is_free form.precision) }
{
    match form.precision {
        None => form.zeros,
        Some(_) => false,
    }
}

/// A whole number: its sign and its digits.
pub fn integer(
    alloc: Global,
    form: Conversion,
    sign: &[u16],
    digits: &[u16],
) -> Result<Text, OutOfMemory>
    ensures { IfOk result (λ t. t ≡ integer (form_of form []) sign.now digits.now) }
{
    let all = at_least(alloc, form.precision, digits)?;
    in_width(alloc, form, fills_with_zeros(form), sign, all.as_slice())
}

/// The last digit of a number to the base of 16, with a first letter for ten.
fn hex_digit(ten: u16, n: u64) -> u16
    requires { ten ≤ 1000 }
    ensures { result ≡ either (nat_lt (n % 16) 10) (48 + n % 16) (ten + n % 16 - 10) }
{
    let digit = (n % 16) as u16;
    if digit < 10 {
        48 + digit
    } else {
        ten + digit - 10
    }
}

/// A text from its end to its beginning.
fn reversed(text: Text) -> Text
    ensures { result ≡ reverse text }
{
    let mut units = text.into_vec();
    units.as_mut_slice().reverse();
    ItemList::from_vec(units)
}

/// The last so many digits of a number to the base of 16, without zeros before them, with a first letter for
/// ten.
fn hex_digits(alloc: Global, places: u8, ten: u16, n: u64) -> Result<Text, OutOfMemory>
    requires { ten ≤ 1000 }
    ensures { IfOk result (λ t. t ≡ hex places ten n []) }
{
    let mut digits = ItemList::new(alloc);
    let mut left = n;
    for i in 0..places {
        digits.push(hex_digit(ten, left))?;
        left /= 16;
        if left == 0 {
            return Ok(reversed(digits));
        }
    }
    Ok(reversed(digits))
}

/// A number to the base of 16, with a first letter for ten.
pub fn hex(alloc: Global, ten: u16, n: u64) -> Result<Text, OutOfMemory>
    requires { ten ≤ 1000 }
    ensures { IfOk result (λ t. t ≡ hex 16 ten n []) }
{
    hex_digits(alloc, 16, ten, n)
}

/// A double with so many decimals, at most 8.
pub fn real(alloc: Global, form: Conversion, decimals: u8, x: Fix8) -> Result<Text, OutOfMemory>
    requires { decimals ≤ 8 }
    ensures { IfOk result (λ t. t ≡ real (form_of form []) decimals x) }
{
    let places = places_of(decimals, x);
    let size = places.unsigned_abs() as u64;
    let sign = sign(alloc, form, places)?;
    let digits = point_text(alloc, decimals, size)?;
    in_width(alloc, form, form.zeros, sign.as_slice(), digits.as_slice())
}

/// A text, of which the precision says how much stands.
pub fn cut(text: &[u16], precision: Option<u8>) -> &[u16]
    ensures { result.now ≡ cut precision text.now }
{
    match precision {
        None => text,
        Some(count) => part_of(text, 0, count as u64),
    }
}
