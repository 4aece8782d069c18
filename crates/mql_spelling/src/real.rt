//! The value of a double literal.
ghost use Rattle.std.specs.Prelude.{◌≡◌, ℕ, ◌+◌, ◌-◌, ◌*◌, ◌^◌, ◌<◌, ◌≤◌, min, length, IfOk, MatchOption, Option, Some, None, option_map};
ghost use Rattle.mql_spelling.specs.Value.{value_from};
ghost use Rattle.mql_spelling.specs.Real.{digits_len, digits_front, digits_rest, fraction_of, fraction_rest, exponent_digits, places_kept, half, kept, double_of, digits_of, exponent_part, real_value};
ghost use Rattle.fx8.specs.Decimals.{has_minus};
ghost use Rattle.mql_source.specs.Limits.{most_units};

use crate::units::is_digit;
use crate::value::number;
use fx8::{Fix8, OutOfMemory, Text};
use std::alloc::Global;

/// How many digits a text begins with.
pub fn digits_len(units: &[u16]) -> usize
    ensures value { result ≡ digits_len units.now }
    ensures within { result ≤ length units.now }
{
    let mut rest = units;
    let mut count = 0usize;
    while let Some((unit, others)) = rest.split_first() {
        if !is_digit(*unit) {
            return count;
        }
        count += 1;
        rest = others;
    }
    count
}

#[tactic(auto, unfolding(crate::specs::Real::digits_front))]
pub fn digits_front(units: &[u16]) -> &[u16]
    ensures value { result.now ≡ digits_front units.now }
    ensures within { length result.now ≤ length units.now }
{
    units.split_at(digits_len(units)).0
}

#[tactic(auto, unfolding(crate::specs::Real::digits_rest))]
pub fn digits_rest(units: &[u16]) -> &[u16]
    ensures value { result.now ≡ digits_rest units.now }
    ensures within { length result.now ≤ length units.now }
{
    units.split_at(digits_len(units)).1
}

fn none_of(units: &[u16]) -> &[u16]
    ensures { length result.now ≡ 0 }
{
    units.split_at(0).0
}

/// The digits behind a point, or none.
fn fraction_of(rest: &[u16]) -> &[u16]
    ensures value { result.now ≡ fraction_of rest.now }
    ensures within { length result.now ≤ length rest.now }
{
    match rest.split_first() {
        Some((unit, others)) => if *unit == 46 {
            digits_front(others)
        } else {
            none_of(rest)
        },
        None => rest,
    }
}

/// What follows the point and its digits.
fn fraction_rest(rest: &[u16]) -> &[u16]
    ensures { result.now ≡ fraction_rest rest.now }
{
    match rest.split_first() {
        Some((unit, others)) => if *unit == 46 {
            digits_rest(others)
        } else {
            rest
        },
        None => rest,
    }
}

fn has_minus(exponent: &[u16]) -> bool
    ensures { result ≡ has_minus exponent.now }
{
    match exponent.split_first() {
        Some((unit, _)) => *unit == 45,
        None => false,
    }
}

fn exponent_digits(exponent: &[u16]) -> &[u16]
    ensures { result.now ≡ exponent_digits exponent.now }
{
    match exponent.split_first() {
        Some((unit, others)) => if *unit == 45 || *unit == 43 {
            others
        } else {
            exponent
        },
        None => exponent,
    }
}

/// How many digits stand before the ninth decimal, where more than `most` count as `most`.
fn places_kept(before: u64, negative: bool, exponent: Option<u64>, most: u64) -> Option<u64>
    requires before { before < 2 ^ 60 }
    requires most { most < 2 ^ 60 }
    ensures { (y : ℕ) → MatchOption exponent (2 ^ 64 ≤ y) (λ e. e ≡ y)
        → result ≡ option_map (λ k. min k most) (places_kept before negative y) }
{
    if negative {
        let y = exponent?;
        if y <= before + 8 {
            Some(most.min(before + 8 - y))
        } else {
            None
        }
    } else {
        match exponent {
            Some(y) if y < most => Some(most.min(before + 8 + y)),
            _ => Some(most),
        }
    }
}

fn product(value: u64, power: u64) -> Option<u64>
    ensures { MatchOption result (2 ^ 64 ≤ value * power) (λ shifted. shifted ≡ value * power) }
{
    value.checked_mul(power)
}

fn sum_of(whole: u64, more: u64) -> Option<u64>
    ensures { MatchOption result (2 ^ 64 ≤ whole + more) (λ v. v ≡ whole + more) }
{
    whole.checked_add(more)
}

/// The number with so many zeros at its end, where it fits 64 bits; 20 stands for 20 and more.
fn shifted(value: u64, up: u32) -> Option<u64>
    requires { up ≤ 20 }
    ensures { (e : ℕ) → up ≡ min e 20
        → MatchOption result (2 ^ 64 ≤ value * 10 ^ e) (λ shifted. shifted ≡ value * 10 ^ e) }
{
    if value == 0 {
        return Some(0);
    }
    if up == 20 {
        return None;
    }
    match 10u64.checked_pow(up) {
        Some(power) => product(value, power),
        None => None,
    }
}

/// The digit of that place is `5` or above.
fn half(digits: &[u16], place: usize) -> u64
    ensures value { result ≡ half digits.now place }
    ensures small { result ≤ 1 }
{
    match digits.get(place) {
        Some(digit) if *digit >= 53 => 1,
        _ => 0,
    }
}

/// The digits before the ninth decimal, rounded by it, where the number fits 64 bits.
fn kept(digits: &[u16], places: u64) -> Option<u64>
    requires { length digits.now < 2 ^ 40 }
    ensures { (k : ℕ) → places ≡ min k (length digits.now + 20)
        → MatchOption result (2 ^ 64 ≤ kept digits.now (Some k)) (λ v. v ≡ kept digits.now (Some k)) }
{
    let len = digits.len() as u64;
    let count = places.min(len);
    let front = digits.split_at(count as usize).0;
    match number(10, front) {
        None => None,
        Some(value) => match shifted(value, (places - count).min(20) as u32) {
            None => None,
            Some(whole) => sum_of(whole, half(digits, count as usize)),
        },
    }
}

/// The double of so many units of 10^-8, where it fits.
fn double_of(units: Option<u64>) -> Option<Fix8>
    ensures { (v : ℕ) → MatchOption units (2 ^ 64 ≤ v) (λ u. u ≡ v) → result ≡ double_of v }
{
    match units {
        Some(value) if value < 0x8000_0000_0000_0000 => Some(Fix8::of_units(value as i64)),
        _ => None,
    }
}

/// The digits of a double, those before its point and those behind it.
#[tactic(auto, unfolding(crate::specs::Real::digits_of))]
fn digits_of(alloc: Global, piece: &[u16]) -> Result<Text, OutOfMemory>
    ensures value { IfOk result (λ digits. digits ≡ digits_of piece.now) }
    ensures within { IfOk result (λ digits. length digits ≤ 2 * length piece.now) }
{
    let mut digits = Text::from_slice(alloc, digits_front(piece))?;
    digits.extend_from_slice(fraction_of(digits_rest(piece)))?;
    Ok(digits)
}

/// What follows the mark of its exponent.
#[tactic(auto, unfolding(crate::specs::Real::exponent_part))]
fn exponent_part(piece: &[u16]) -> &[u16]
    ensures { result.now ≡ exponent_part piece.now }
{
    let mark = fraction_rest(digits_rest(piece));
    match mark.split_first() {
        Some((_, others)) => others,
        None => mark,
    }
}

/// The digits before the ninth decimal, rounded by it; none where it stands before the first digit.
fn value_of(digits: &[u16], places: Option<u64>) -> Option<u64>
    requires { length digits.now < 2 ^ 40 }
    ensures { (o : Option ℕ) → places ≡ option_map (λ k. min k (length digits.now + 20)) o
        → MatchOption result (2 ^ 64 ≤ kept digits.now o) (λ v. v ≡ kept digits.now o) }
{
    match places {
        None => Some(0),
        Some(count) => kept(digits, count),
    }
}

/// The value of a double literal, where a double holds it.
#[tactic(auto, unfolding(crate::specs::Real::real_value))]
pub fn real_value(alloc: Global, piece: &[u16]) -> Result<Option<Fix8>, OutOfMemory>
    requires { length piece.now ≤ most_units }
    ensures { IfOk result (λ found. found ≡ real_value piece.now) }
{
    let digits = digits_of(alloc, piece)?;
    let exponent = exponent_part(piece);
    let most = digits.len() + 20;
    let before = digits_len(piece) as u64;
    let places = places_kept(
        before,
        has_minus(exponent),
        number(10, exponent_digits(exponent)),
        most,
    );
    Ok(double_of(value_of(digits.as_slice(), places)))
}
