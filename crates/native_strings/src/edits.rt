//! Texts with a unit changed, and padded texts.
ghost use Rattle.std.specs.Prelude.{◌≡◌, ◌-◌, ◌++◌, replicate, length, IfOk};
ghost use Rattle.mql_meaning.specs.StringFunctions.{with_unit, padded};

use crate::counts::{behind, first_of};
use fx8::{ItemList, OutOfMemory, Text};
use std::alloc::Global;

/// A text with a unit at a place, and with one more where the place is the end (MQL5 Reference,
/// StringSetCharacter).
pub fn with_unit(alloc: Global, text: &[u16], place: u64, unit: u16) -> Result<Text, OutOfMemory>
    ensures { IfOk result (λ t. t ≡ with_unit text.now place unit) }
{
    let mut out = ItemList::from_slice(alloc, first_of(text, place))?;
    out.push(unit)?;
    out.extend_from_slice(behind(behind(text, place), 1))?;
    Ok(out)
}

/// Adds a unit so many times at the end of a text.
#[tactic(auto, using(crate::proofs::Lists::one_more))]
fn add_units(out: Text, unit: u16, count: u64) -> Result<Text, OutOfMemory>
    ensures { IfOk result (λ t. t ≡ out ++ replicate count unit) }
{
    let mut out = out;
    for i in 0..count {
        out.push(unit)?;
    }
    Ok(out)
}

/// How many units are missing in a text of a width; `OutOfMemory` where they are more than a list can have.
fn missing(width: u128, text: &[u16]) -> Result<u64, OutOfMemory>
    ensures { IfOk result (λ n. n ≡ width - length text.now) }
{
    let missing = width.saturating_sub(text.len() as u128);
    if missing > u64::MAX as u128 {
        return Err(OutOfMemory);
    }
    Ok(missing as u64)
}

/// A text of at least so many units: others stand behind it where it is at the left, else before it.
pub fn padded(
    alloc: Global,
    at_left: bool,
    width: u128,
    unit: u16,
    text: &[u16],
) -> Result<Text, OutOfMemory>
    ensures { IfOk result (λ t. t ≡ padded at_left width unit text.now) }
{
    let missing = missing(width, text)?;
    if at_left {
        let out = ItemList::from_slice(alloc, text)?;
        return add_units(out, unit, missing);
    }
    let mut out = add_units(ItemList::new(alloc), unit, missing)?;
    out.extend_from_slice(text)?;
    Ok(out)
}
