//! Doubles as decimal texts.
ghost use Rattle.std.specs.Prelude.{◌≡◌, ◌==◌, Bool, true, false, if◌then◌else◌, nat_le, slice_index, None, Some, ◌+◌, ◌-◌, ◌<◌, ◌≤◌, ◌^◌, ◌*◌, ◌++◌, ◌∷◌, ◌%◌, ◌/◌, position, length, take, drop, decimal, OnOk, OnErr, IfSome, MatchOption, unsigned_abs};
ghost use Rattle.fx8.specs.Rounding.{nearest, signed};
ghost use Rattle.fx8.specs.Doubles.{fits_double};
ghost use Rattle.fx8.specs.Decimals.{is_digit, all_digits, are_digits, number_after, units_of, double_if, unsigned_value, has_minus, behind_sign, double_of_text, decimals, sign_text, text_of};

use crate::fix8::{double, unit_of_place};
use crate::rounding::signed;
use crate::{Fix8, OutOfMemory, Text8};

/// Whether a byte is a decimal digit.
fn is_digit(byte: u8) -> bool
    ensures { result ≡ is_digit byte }
{
    b'0' <= byte && byte <= b'9'
}

/// The number of a decimal digit.
fn digit_of(byte: u8) -> u8
    requires { is_digit byte ≡ true }
    ensures value { result ≡ byte - 48 }
    ensures at_most { result ≤ 9 }
{
    byte - b'0'
}

/// Whether a text is digits, at least one.
#[tactic(auto, using(crate::proofs::Digits::some_are, crate::proofs::Digits::head_not_digit, crate::proofs::Digits::head_digit, crate::proofs::Digits::no_digits_left))]
fn are_digits(text: &[u8]) -> bool
    ensures { result ≡ are_digits text.now }
{
    if text.is_empty() {
        return false;
    }
    let mut rest = text;
    while let [byte, tail @ ..] = rest {
        if !is_digit(*byte) {
            return false;
        }
        rest = tail;
    }
    true
}

/// The number that digits go on with after a number; `None` exactly where 64 bits do not hold it.
#[tactic(auto, using(crate::proofs::Digits::front_digit, crate::proofs::Digits::rest_digits, crate::proofs::Digits::number_grows, crate::proofs::Digits::number_step, crate::proofs::Digits::number_end))]
fn number_after(number: u64, digits: &[u8]) -> Option<u64>
    requires { all_digits digits.now ≡ true }
    ensures { MatchOption result (2 ^ 64 ≤ number_after number digits.now)
        (λ n. n ≡ number_after number digits.now) }
{
    let mut value = number;
    let mut rest = digits;
    while let [byte, tail @ ..] = rest {
        let next = value as u128 * 10 + digit_of(*byte) as u128;
        if next > u64::MAX as u128 {
            return None;
        }
        value = next as u64;
        rest = tail;
    }
    Some(value)
}

/// The first eight of decimals.
fn first_decimals(decimals: &[u8]) -> &[u8]
    ensures value { result.now ≡ take 8 decimals.now }
    ensures few { length result.now ≤ 8 }
{
    if decimals.len() <= 8 {
        return decimals;
    }
    &decimals[..8]
}

/// 1 where the ninth decimal is 5 or above, else 0.
fn half(decimals: &[u8]) -> u64
    ensures value { result ≡ (if nat_le 53 (slice_index decimals.now 8) then 1 else 0) }
    ensures at_most { result ≤ 1 }
{
    match decimals.get(8) {
        Some(byte) if b'5' <= *byte => 1,
        _ => 0,
    }
}

/// A number of so many decimals in units of 10^-8, and a rounded unit more.
fn scaled(number: u64, places: usize, more: u64) -> u128
    requires places { places ≤ 8 }
    requires few { more ≤ 1 }
    ensures value { result ≡ number * 10 ^ (8 - places) + more }
    ensures at_most { result < 2 ^ 127 }
{
    number as u128 * unit_of_place(places as u8) as u128 + more as u128
}

/// How many units of 10^-8 digits before and behind a point are, rounded past the eighth decimal, half away
/// from zero; `None` only where 64 bits do not hold them.
#[tactic(auto, using(crate::proofs::Digits::digits_taken))]
fn size(whole: &[u8], decimals: &[u8]) -> Option<u128>
    requires whole { all_digits whole.now ≡ true }
    requires decimals { all_digits decimals.now ≡ true }
    ensures value { (below : Bool) → MatchOption result
        (fits_double (units_of below whole.now decimals.now) ≡ false)
        (λ n. units_of below whole.now decimals.now ≡ signed below n) }
    ensures at_most { IfSome result (λ n. n < 2 ^ 127) }
{
    let front = first_decimals(decimals);
    let Some(begun) = number_after(0, whole) else {
        return None;
    };
    let Some(number) = number_after(begun, front) else {
        return None;
    };
    Some(scaled(number, front.len(), half(decimals)))
}

/// The double of digits before and behind a point.
fn value(below_zero: bool, whole: &[u8], decimals: &[u8]) -> Option<Fix8>
    requires whole { all_digits whole.now ≡ true }
    requires decimals { all_digits decimals.now ≡ true }
    ensures { result ≡ double_if true (units_of below_zero whole.now decimals.now) }
{
    let size = size(whole, decimals)?;
    double(signed(below_zero, size)).ok()
}

/// Where the first point stands.
fn place_of_point(text: &[u8]) -> Option<usize>
    ensures value { result ≡ position (λ byte. byte == 46) text.now }
    ensures within { IfSome result (λ place. place < length text.now) }
{
    text.iter().position(|byte| *byte == b'.')
}

/// What stands behind a place.
#[tactic(auto, using(crate::proofs::Digits::behind_is))]
fn behind(text: &[u8], place: usize) -> &[u8]
    requires { place < length text.now }
    ensures { result.now ≡ drop (place + 1) text.now }
{
    &text[place + 1..]
}

/// The double of digits alone.
fn whole_value(below_zero: bool, text: &[u8]) -> Option<Fix8>
    ensures { result ≡ unsigned_value below_zero text.now None }
{
    if !are_digits(text) {
        return None;
    }
    value(below_zero, text, &[])
}

/// The double of digits, a point at a place, and digits.
fn pointed_value(below_zero: bool, text: &[u8], place: usize) -> Option<Fix8>
    requires { place < length text.now }
    ensures { result ≡ unsigned_value below_zero text.now (Some place) }
{
    let whole = &text[..place];
    let decimals = behind(text, place);
    if !are_digits(whole) {
        return None;
    }
    if !are_digits(decimals) {
        return None;
    }
    value(below_zero, whole, decimals)
}

/// Whether a text begins with `-`.
fn has_minus(text: &[u8]) -> bool
    ensures value { result ≡ has_minus text.now }
    ensures some { result ≡ true → 0 < length text.now }
{
    match text.first() {
        Some(byte) => *byte == b'-',
        None => false,
    }
}

/// What follows the sign.
#[tactic(auto, using(crate::proofs::Digits::behind_is))]
fn behind_sign(text: &[u8]) -> &[u8]
    ensures { result.now ≡ behind_sign text.now }
{
    if has_minus(text) {
        return &text[1..];
    }
    text
}

impl Fix8 {
    /// The double of a decimal text: an optional `-`, digits, and optionally a point and digits, rounded
    /// past the eighth decimal half away from zero. `None` exactly where the text has not this form, or 64
    /// bits do not hold the units.
    #[tactic(auto, unfolding(crate::specs::Decimals::double_of_text))]
    pub fn of_text(text: &[u8]) -> Option<Fix8>
        ensures { result ≡ double_of_text text.now }
    {
        let below_zero = has_minus(text);
        let rest = behind_sign(text);
        match place_of_point(rest) {
            Some(place) => pointed_value(below_zero, rest, place),
            None => whole_value(below_zero, rest),
        }
    }
}
