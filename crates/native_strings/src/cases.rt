//! Small letters and capitals (MQL5 Reference, StringToLower, StringToUpper).
ghost use Rattle.std.specs.Prelude.{◌≡◌, map, IfOk};
ghost use Rattle.mql_meaning.specs.StringFunctions.{small, capital};

use fx8::{ItemList, OutOfMemory, Text};
use std::alloc::Global;

/// A unit, and the small letter of an ASCII capital.
pub fn small(unit: u16) -> u16
    ensures { result ≡ small unit }
{
    if 65 <= unit && unit <= 90 {
        unit + 32
    } else {
        unit
    }
}

/// A unit, and the capital of a small ASCII letter.
pub fn capital(unit: u16) -> u16
    ensures { result ≡ capital unit }
{
    if 97 <= unit && unit <= 122 {
        unit - 32
    } else {
        unit
    }
}

/// A text with small letters for its ASCII capitals.
pub fn lowered(alloc: Global, text: &[u16]) -> Result<Text, OutOfMemory>
    ensures { IfOk result (λ t. t ≡ map small text.now) }
{
    let units = text.iter().map(|unit| small(*unit)).collect(alloc)?;
    Ok(ItemList::from_vec(units))
}

/// A text with capitals for its small ASCII letters.
pub fn raised(alloc: Global, text: &[u16]) -> Result<Text, OutOfMemory>
    ensures { IfOk result (λ t. t ≡ map capital text.now) }
{
    let units = text.iter().map(|unit| capital(*unit)).collect(alloc)?;
    Ok(ItemList::from_vec(units))
}
