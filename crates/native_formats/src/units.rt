//! Units of formats.
ghost use Rattle.std.specs.Prelude.{◌≡◌, codes, take_while, true, false, IfSome, MatchOption};
ghost use Rattle.fx8.specs.Decimals.{is_digit};
ghost use Rattle.mql_meaning.specs.Formats.{among, is_flag, past, behind_prefix};
ghost use Rattle.native_formats.specs.Forms.{unit_of};

use crate::letter::Letter;
use native_strings::{begins, behind};

/// Whether a unit is among these.
#[tactic(auto, using(crate::proofs::Flags::found, crate::proofs::Flags::not_first, crate::proofs::Flags::nothing_left))]
pub(crate) fn among(unit: u16, units: &[u16]) -> bool
    ensures { result ≡ among unit units.now }
{
    let mut rest = units;
    while let [first, others @ ..] = rest {
        if unit == *first {
            return true;
        }
        rest = others;
    }
    false
}

/// Whether a unit is a flag: `-`, `0` or `+`.
fn is_flag(unit: u16) -> bool
    ensures { result ≡ is_flag unit }
{
    unit == 45 || unit == 48 || unit == 43
}

/// Whether a unit is a decimal digit.
fn is_digit(unit: u16) -> bool
    ensures { result ≡ is_digit unit }
{
    48 <= unit && unit <= 57
}

/// The letter that a unit is; `None` exactly where it is none.
#[tactic(auto, using(crate::proofs::Letters::no_letter))]
pub(crate) fn letter_of(unit: u16) -> Option<Letter>
    ensures is { IfSome result (λ letter. unit_of letter ≡ unit) }
    ensures among { MatchOption result (among unit (codes "diuxXcsf%") ≡ false)
        (λ letter. among unit (codes "diuxXcsf%") ≡ true) }
{
    match unit {
        100 => Some(Letter::D),
        105 => Some(Letter::I),
        117 => Some(Letter::U),
        120 => Some(Letter::SmallX),
        88 => Some(Letter::CapitalX),
        99 => Some(Letter::C),
        115 => Some(Letter::S),
        102 => Some(Letter::F),
        37 => Some(Letter::Percent),
        _ => None,
    }
}

/// The flags at the beginning of a text.
#[tactic(auto, using(crate::proofs::Flags::one_flag, crate::proofs::Flags::flags_end, crate::proofs::Flags::all_flags))]
pub(crate) fn flags_of(text: &[u16]) -> &[u16]
    ensures { result.now ≡ take_while is_flag text.now }
{
    let mut end = 0;
    while end < text.len() {
        if !is_flag(text[end]) {
            return &text[..end];
        }
        end += 1;
    }
    text
}

/// The digits at the beginning of a text.
#[tactic(auto, using(crate::proofs::Flags::one_digit, crate::proofs::Flags::digits_end, crate::proofs::Flags::all_digits))]
pub(crate) fn digits_of(text: &[u16]) -> &[u16]
    ensures { result.now ≡ take_while is_digit text.now }
{
    let mut end = 0;
    while end < text.len() {
        if !is_digit(text[end]) {
            return &text[..end];
        }
        end += 1;
    }
    text
}

/// What stands behind the flags at the beginning of a text.
pub(crate) fn past_flags(text: &[u16]) -> &[u16]
    ensures { result.now ≡ past is_flag text.now }
{
    behind(text, flags_of(text).len() as u64)
}

/// What stands behind the digits at the beginning of a text.
pub(crate) fn past_digits(text: &[u16]) -> &[u16]
    ensures { result.now ≡ past is_digit text.now }
{
    behind(text, digits_of(text).len() as u64)
}

/// What stands behind the prefix of a letter, which says nothing: `I64`, `ll`, `h` or `l`.
pub(crate) fn behind_prefix(text: &[u16]) -> &[u16]
    ensures { result.now ≡ behind_prefix text.now }
{
    if begins(&[73, 54, 52], text) {
        return behind(text, 3);
    }
    if begins(&[108, 108], text) {
        return behind(text, 2);
    }
    if begins(&[104], text) {
        return behind(text, 1);
    }
    if begins(&[108], text) {
        return behind(text, 1);
    }
    text
}
