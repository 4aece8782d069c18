//! The text of a price file.
ghost use Rattle.std.specs.Prelude.{◌≡◌, None, Some, MatchOption, IfOk, option_map, true, false, ◌&&◌, ◌==◌};
ghost use Rattle.csv.specs.Reading.{strip_bom};
ghost use Rattle.price_rows.specs.Files.{narrow, units, text_of};

use fx8::OutOfMemory;
use std::alloc::Global;

/// A unit of UTF-16; one past ASCII stands as 255.
fn narrow(low: u8, high: u8) -> u8
    ensures { result ≡ narrow low high }
{
    if high == 0 && low <= 127 { low } else { 255 }
}

/// The units of bytes; `None` exactly where they are odd in number.
pub(crate) fn units(alloc: Global, bytes: &[u8]) -> Result<Option<Vec<u8>>, OutOfMemory>
    ensures { IfOk result (λ o. option_map (λ v. v.items) o ≡ units bytes.now) }
{
    let mut text = Vec::new(alloc);
    let mut rest = bytes;
    while let [low, high, tail @ ..] = rest {
        text.push(narrow(*low, *high))?;
        rest = tail;
    }
    if rest.is_empty() {
        return Ok(Some(text));
    }
    Ok(None)
}

/// The bytes of UTF-16 after its mark FF FE; `None` where the bytes do not begin with it.
#[tactic(auto, using(crate::proofs::Texts::mark_short, crate::proofs::Texts::mark_first, crate::proofs::Texts::mark_second, crate::proofs::Texts::mark_is))]
pub(crate) fn utf16(bytes: &[u8]) -> Option<&[u8]>
    ensures { MatchOption result (text_of bytes.now ≡ Some (strip_bom bytes.now))
        (λ rest. text_of bytes.now ≡ units rest.now) }
{
    match bytes {
        [first, second, rest @ ..] => {
            if *first != 0xFF {
                return None;
            }
            if *second != 0xFE {
                return None;
            }
            Some(rest)
        }
        _ => None,
    }
}
