//! Pieces of texts.
ghost use Rattle.std.specs.Prelude.{◌≡◌, ◌≤◌, ◌+◌, ◌++◌, ◌∷◌, decimal, IfOk};
ghost use Rattle.mql_meaning.specs.Dates as dates;

use fx8::{OutOfMemory, Text};
use itoa::Buffer;
use std::alloc::Global;

/// Bytes as 16-bit units.
pub(crate) fn widened(alloc: Global, bytes: &[u8]) -> Result<Text, OutOfMemory>
    ensures { IfOk result (λ text. text ≡ bytes.now) }
{
    let mut text = Text::new(alloc);
    for byte in bytes {
        text.push(u16::from(*byte))?;
    }
    Ok(text)
}

/// Two texts with a unit between them.
pub(crate) fn joined(front: Text, between: u16, back: Text) -> Result<Text, OutOfMemory>
    ensures { IfOk result (λ text. text ≡ front ++ between ∷ back) }
{
    let mut text = front;
    text.push(between)?;
    text.append(back)?;
    Ok(text)
}

/// A whole number in decimal.
pub(crate) fn decimal_text(alloc: Global, number: u128) -> Result<Text, OutOfMemory>
    ensures { IfOk result (λ text. text ≡ decimal number) }
{
    let mut buffer = Buffer::new();
    widened(alloc, buffer.format(number).as_bytes())
}

/// A decimal digit.
fn digit(n: u32) -> u16
    requires { n ≤ 9 }
    ensures { result ≡ 48 + n }
{
    48 + n as u16
}

/// The last two digits of a number.
pub(crate) fn two_digits(alloc: Global, n: u32) -> Result<Text, OutOfMemory>
    ensures { IfOk result (λ text. text ≡ dates.two_digits n) }
{
    let digits = [digit(n / 10 % 10), digit(n % 10)];
    Text::from_slice(alloc, &digits)
}

/// The last four digits of a number.
pub(crate) fn four_digits(alloc: Global, n: u32) -> Result<Text, OutOfMemory>
    ensures { IfOk result (λ text. text ≡ dates.four_digits n) }
{
    let mut text = two_digits(alloc, n / 100)?;
    text.append(two_digits(alloc, n)?)?;
    Ok(text)
}
