//! Numbers with a point (MQL5 Reference, DoubleToString).
ghost use Rattle.std.specs.Prelude.{◌≡◌, ◌<◌, ◌≤◌, ◌^◌, decimal, pos, unsigned_abs, false, IfOk};
ghost use Rattle.fx8.specs.Integers.{is_zero};
ghost use Rattle.fx8.specs.Doubles.{unit_of_place};
ghost use Rattle.fx8.specs.Decimals.{sign_text};
ghost use Rattle.mql_meaning.specs.StringFunctions.{point_text, places_of, fixed_text};

use crate::edits::padded;
use fx8::{Fix8, ItemList, OutOfMemory, Text, rounded, unit_of_place};
use itoa::Buffer;
use std::alloc::Global;

/// Bytes as 16-bit units.
fn widened(alloc: Global, bytes: &[u8]) -> Result<Text, OutOfMemory>
    ensures { IfOk result (λ t. t ≡ bytes.now) }
{
    let mut text = ItemList::new(alloc);
    for byte in bytes {
        text.push(u16::from(*byte))?;
    }
    Ok(text)
}

/// A whole number in decimal.
fn decimal(alloc: Global, number: u64) -> Result<Text, OutOfMemory>
    ensures { IfOk result (λ t. t ≡ decimal number) }
{
    let mut buffer = Buffer::new();
    widened(alloc, buffer.format(number).as_bytes())
}

/// How many units of the last of so many decimals are 1.
fn units_of_one(decimals: u8) -> u64
    requires { decimals ≤ 8 }
    ensures value { result ≡ 10 ^ decimals }
    ensures some { 0 < result }
{
    unit_of_place(8 - decimals)
}

/// A whole number of units of the last of so many decimals, at most 8, with its point.
pub fn point_text(alloc: Global, decimals: u8, number: u64) -> Result<Text, OutOfMemory>
    requires { decimals ≤ 8 }
    ensures { IfOk result (λ t. t ≡ point_text decimals number) }
{
    if decimals == 0 {
        return decimal(alloc, number);
    }
    let unit = units_of_one(decimals);
    let mut text = decimal(alloc, number / unit)?;
    let rest = decimal(alloc, number % unit)?;
    text.push(46)?;
    let digits = padded(alloc, false, decimals as u128, 48, rest.as_slice())?;
    text.append(digits)?;
    Ok(text)
}

/// How many units of 10^-8 a double is.
fn units_of(x: Fix8) -> i128
    ensures value { result ≡ x }
    ensures at_most { unsigned_abs result ≤ 2 ^ 63 }
{
    x.units() as i128
}

/// How many units of 10^-8 the last of so many decimals is worth.
fn unit_of(decimals: u8) -> i128
    ensures value { result ≡ pos (unit_of_place decimals) }
    ensures some { is_zero result ≡ false }
{
    unit_of_place(decimals) as i128
}

/// A double in units of the last of so many decimals, rounded half away from zero.
pub fn places_of(decimals: u8, x: Fix8) -> i128
    ensures value { result ≡ places_of decimals x }
    ensures at_most { unsigned_abs result ≤ 2 ^ 63 }
{
    rounded(units_of(x), unit_of(decimals))
}

/// `-` below zero.
fn sign_text(alloc: Global, number: i128) -> Result<Text, OutOfMemory>
    ensures { IfOk result (λ t. t ≡ sign_text number) }
{
    let mut text = ItemList::new(alloc);
    if number < 0 {
        text.push(45)?;
    }
    Ok(text)
}

/// A double with so many decimals, at most 8, rounded half away from zero.
pub fn fixed_text(alloc: Global, decimals: u8, x: Fix8) -> Result<Text, OutOfMemory>
    requires { decimals ≤ 8 }
    ensures { IfOk result (λ t. t ≡ fixed_text decimals x) }
{
    let places = places_of(decimals, x);
    let size = places.unsigned_abs() as u64;
    let mut text = sign_text(alloc, places)?;
    let number = point_text(alloc, decimals, size)?;
    text.append(number)?;
    Ok(text)
}
