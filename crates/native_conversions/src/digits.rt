//! The whole number that a text begins with.
ghost use Rattle.std.specs.Prelude.{◌≡◌, ℕ, ◌+◌, ◌*◌, ◌-◌, true, pos, neg_ℤ};
ghost use Rattle.fx8.specs.declared.int_kind.IntKind.TheVariants as kinds;
ghost use Rattle.fx8.specs.Integers.{wrapped};
ghost use Rattle.fx8.specs.Decimals as decimals;
ghost use Rattle.mql_meaning.specs.Texts as texts;
ghost use Rattle.native_conversions.specs.LowBits.{low_bits};

use fx8::{IntKind, wrap};

/// Whether a unit is a decimal digit.
pub(crate) fn is_digit(unit: u16) -> bool
    ensures { result ≡ decimals.is_digit unit }
{
    48 <= unit && unit <= 57
}

/// What stands behind the blanks at the beginning of a text.
pub(crate) fn behind_blanks(text: &[u16]) -> &[u16]
    ensures { result.now ≡ texts.behind_blanks text.now }
{
    let mut rest = text;
    while let [unit, others @ ..] = rest {
        if *unit != 32 {
            return rest;
        }
        rest = others;
    }
    rest
}

/// A number with one digit more, as much of it as 64 bits hold.
#[tactic(auto, unfolding(crate::specs::LowBits::low_bits))]
fn low_sum(number: u64, digit: u16) -> u64
    requires { decimals.is_digit digit ≡ true }
    ensures { result ≡ low_bits (number * 10 + (digit - 48)) }
{
    ((number as u128 * 10 + (digit - 48) as u128) % 0x1_0000_0000_0000_0000) as u64
}

/// A number with one digit more, as much of it as 64 bits hold.
#[tactic(auto, using(crate::proofs::Numbers::low_low))]
fn with_digit(number: u64, digit: u16) -> u64
    requires { decimals.is_digit digit ≡ true }
    ensures value { result ≡ low_bits (number * 10 + (digit - 48)) }
    ensures small { low_bits result ≡ result }
{
    low_sum(number, digit)
}

/// The number that the digits at the beginning of a text write, as much of it as 64 bits hold.
#[tactic(auto, using(crate::proofs::Numbers::digits_next, crate::proofs::Numbers::digits_stop, crate::proofs::Numbers::digits_end, crate::proofs::Numbers::no_digits))]
fn digits_number(text: &[u16]) -> u64
    ensures { result ≡ low_bits (decimals.number (texts.digits_first text.now)) }
{
    let mut number: u64 = 0;
    let mut rest = text;
    while let [unit, others @ ..] = rest {
        if !is_digit(*unit) {
            return number;
        }
        number = with_digit(number, *unit);
        rest = others;
    }
    number
}

/// A number taken into `long`.
fn in_long(number: i128) -> i64
    ensures { result ≡ wrapped kinds.Long number }
{
    wrap(IntKind::Long, number) as i64
}

/// A number of 64 bits as a `long`.
#[tactic(auto, using(crate::proofs::Numbers::wrapped_number))]
fn as_long(number: u64) -> i64
    ensures { (n : ℕ) → number ≡ low_bits n → result ≡ wrapped kinds.Long (pos n) }
{
    in_long(number as i128)
}

fn negated(number: u64) -> i128
    ensures { result ≡ neg_ℤ (pos number) }
{
    -(number as i128)
}

/// The negative of a number of 64 bits as a `long`.
#[tactic(auto, using(crate::proofs::Numbers::wrapped_negative))]
fn negative_long(number: u64) -> i64
    ensures { (n : ℕ) → number ≡ low_bits n → result ≡ wrapped kinds.Long (neg_ℤ (pos n)) }
{
    in_long(negated(number))
}

/// A sign and digits, as a `long`; else 0.
#[tactic(auto, using(crate::proofs::Numbers::wrapped_zero))]
fn signed_number(text: &[u16]) -> i64
    ensures { result ≡ wrapped kinds.Long (texts.signed_number text.now) }
{
    match text {
        [] => 0,
        [unit, others @ ..] => {
            if *unit == 45 {
                return negative_long(digits_number(others));
            }
            if *unit == 43 {
                return as_long(digits_number(others));
            }
            as_long(digits_number(text))
        }
    }
}

/// The whole number that a text begins with behind blanks, as a `long`; else 0 (MQL5 Reference, StringToInteger).
pub fn integer_of(text: &[u16]) -> i64
    ensures { result ≡ texts.integer_of text.now }
{
    signed_number(behind_blanks(text))
}
