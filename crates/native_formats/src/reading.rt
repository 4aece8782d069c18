//! The conversions that a format names.
ghost use Rattle.std.specs.Prelude.{◌≡◌, ◌≤◌, length, option_map};
ghost use Rattle.fx8.specs.Decimals.{number};
ghost use Rattle.mql_meaning.specs.Formats.{form, lettered, pointed, precise, precision_or};
ghost use Rattle.native_formats.specs.Forms.{in_text};

use crate::conversion::Conversion;
use crate::units::{among, behind_prefix, digits_of, flags_of, letter_of, past_digits, past_flags};

/// The number that at most two digits write.
fn number(digits: &[u16]) -> u32
    requires { length digits.now ≤ 2 }
    ensures { result ≡ number digits.now }
{
    match digits {
        [] => 0,
        [one] => one.saturating_sub(48) as u32,
        [ten, one, ..] => { ten.saturating_sub(48) as u32 * 10 + one.saturating_sub(48) as u32 }
    }
}

/// The letter of a conversion, and the text behind it.
fn lettered<'a>(
    flags: &[u16],
    width: &[u16],
    precision: Option<u8>,
    text: &'a [u16],
) -> Option<(Conversion, &'a [u16])>
    requires { precision_or 6 precision ≤ 8 }
    ensures { in_text (option_map (λ p. (p.0, p.1.now)) result)
        ≡ lettered flags.now width.now precision text.now }
{
    let [unit, rest @ ..] = text else {
        return None;
    };
    if width.len() > 2 {
        return None;
    }
    let Some(letter) = letter_of(*unit) else {
        return None;
    };
    let form = Conversion {
        left: among(45, flags),
        zeros: among(48, flags),
        plus: among(43, flags),
        width: number(width),
        precision,
        letter,
    };
    Some((form, rest))
}

/// Behind the point: the precision, one digit to 8, and what follows.
fn precise<'a>(flags: &[u16], width: &[u16], text: &'a [u16]) -> Option<(Conversion, &'a [u16])>
    ensures { in_text (option_map (λ p. (p.0, p.1.now)) result) ≡ precise flags.now width.now text.now }
{
    let [digit, rest @ ..] = text else {
        return None;
    };
    if 48 <= *digit && *digit <= 56 {
        lettered(flags, width, Some((*digit - 48) as u8), behind_prefix(rest))
    } else {
        None
    }
}

/// Behind the width: a point and the precision or none, and what follows.
fn pointed<'a>(flags: &[u16], width: &[u16], text: &'a [u16]) -> Option<(Conversion, &'a [u16])>
    ensures { in_text (option_map (λ p. (p.0, p.1.now)) result) ≡ pointed flags.now width.now text.now }
{
    let [unit, rest @ ..] = text else {
        return None;
    };
    if *unit == 46 {
        precise(flags, width, rest)
    } else {
        lettered(flags, width, None, behind_prefix(text))
    }
}

/// The conversion that a text behind a `%` begins with, and the text behind it; `None` exactly where it
/// begins with none.
pub fn form(text: &[u16]) -> Option<(Conversion, &[u16])>
    ensures { in_text (option_map (λ p. (p.0, p.1.now)) result) ≡ form text.now }
{
    let behind_flags = past_flags(text);
    pointed(
        flags_of(text),
        digits_of(behind_flags),
        past_digits(behind_flags),
    )
}
