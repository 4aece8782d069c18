//! The double that a text begins with.
ghost use Rattle.std.specs.Prelude.{◌≡◌, ◌++◌, length, true, false, IfOk, IfSome, MatchOption};
ghost use Rattle.mql_meaning.specs.Texts as texts;
ghost use Rattle.native_conversions.specs.Stretches.{is_double_unit, double_stretch};

use crate::digits::{behind_blanks, is_digit};
use fx8::{Fix8, OutOfMemory, Text8};
use std::alloc::Global;

/// A unit of a double as a byte.
fn double_byte(unit: u16) -> Option<u8>
    ensures value { MatchOption result (is_double_unit unit ≡ false) (λ byte. byte ≡ unit) }
    ensures some { IfSome result (λ byte. is_double_unit unit ≡ true) }
{
    if is_digit(unit) {
        return Some(unit as u8);
    }
    match unit {
        45 => Some(b'-'),
        46 => Some(b'.'),
        _ => None,
    }
}

/// The beginning of a text that digits, points and minus signs are.
#[tactic(auto, using(crate::proofs::Stretched::stretch_next, crate::proofs::Stretched::stretch_stop, crate::proofs::Stretched::stretch_end))]
fn stretch(alloc: Global, text: &[u16]) -> Result<Text8, OutOfMemory>
    ensures { IfOk result (λ bytes. bytes ≡ double_stretch text.now) }
{
    let mut bytes = Text8::new(alloc);
    let mut rest = text;
    while let [unit, others @ ..] = rest {
        match double_byte(*unit) {
            Some(byte) => bytes.push(byte)?,
            None => return Ok(bytes),
        }
        rest = others;
    }
    Ok(bytes)
}

/// The double of the longest beginning that is one, else 0.
#[tactic(auto, using(crate::proofs::Stretched::longest_here, crate::proofs::Stretched::longest_next, crate::proofs::Stretched::longest_end))]
fn longest_double(bytes: &[u8]) -> Fix8
    ensures { result ≡ texts.longest_double (length bytes.now) bytes.now }
{
    let mut size = bytes.len();
    while size > 0 {
        if let Some(number) = Fix8::of_text(&bytes[..size]) {
            return number;
        }
        size -= 1;
    }
    Fix8::of_units(0)
}

/// The double that a text begins with behind blanks, else 0 (MQL5 Reference, StringToDouble).
#[tactic(auto, using(crate::proofs::Stretched::double_of_stretch))]
pub fn double_of(alloc: Global, text: &[u16]) -> Result<Fix8, OutOfMemory>
    ensures { IfOk result (λ number. number ≡ texts.double_of text.now) }
{
    let bytes = stretch(alloc, behind_blanks(text))?;
    Ok(longest_double(bytes.as_slice()))
}
