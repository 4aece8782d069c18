//! The numbers that digits spell.
ghost use Rattle.std.specs.Prelude.{◌≡◌, ◌+◌, ◌*◌, ◌^◌, ◌≤◌, MatchOption};
ghost use Rattle.mql_spelling.specs.Value.{digit_value, value_from};

/// The value of a decimal or hexadecimal digit.
pub fn digit_value(unit: u16) -> u16
    ensures { result ≡ digit_value unit }
{
    if unit <= 57 {
        unit.saturating_sub(48)
    } else if 97 <= unit {
        unit - 87
    } else {
        unit.saturating_sub(55)
    }
}

/// The number with one digit more, where it fits 64 bits.
fn with_digit(base: u64, value: u64, digit: u16) -> Option<u64>
    ensures { MatchOption result (2 ^ 64 ≤ base * value + digit_value digit)
        (λ next. next ≡ base * value + digit_value digit) }
{
    let shifted = base.checked_mul(value)?;
    shifted.checked_add(u64::from(digit_value(digit)))
}

/// The number of these digits, where it fits 64 bits.
pub fn number(base: u64, digits: &[u16]) -> Option<u64>
    requires { 1 ≤ base }
    ensures { MatchOption result (2 ^ 64 ≤ value_from base 0 digits.now)
        (λ value. value ≡ value_from base 0 digits.now) }
{
    let mut value = 0u64;
    let mut rest = digits;
    while let Some((digit, others)) = rest.split_first() {
        match with_digit(base, value, *digit) {
            Some(next) => value = next,
            None => return None,
        }
        rest = others;
    }
    Some(value)
}
