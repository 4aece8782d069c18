//! The parts of a text between separators (MQL5 Reference, StringSplit).
ghost use Rattle.std.specs.Prelude.{◌≡◌, IfOk};
ghost use Rattle.mql_meaning.specs.StringFunctions.{parts, split};

use fx8::{ItemList, OutOfMemory, Text};
use std::alloc::Global;

/// The parts between separators, at least one.
#[tactic(auto, using(crate::proofs::Parts::begun, crate::proofs::Parts::part_done, crate::proofs::Parts::unit_done, crate::proofs::Parts::all_done))]
fn parts(alloc: Global, separator: u16, text: &[u16]) -> Result<ItemList<Text>, OutOfMemory>
    ensures { IfOk result (λ ts. ts ≡ parts separator text.now) }
{
    let mut done = ItemList::new(alloc);
    let mut part = ItemList::new(alloc);
    for unit in text {
        if *unit == separator {
            done.push(part)?;
            part = ItemList::new(alloc);
        } else {
            part.push(*unit)?;
        }
    }
    done.push(part)?;
    Ok(done)
}

/// The parts of a text between separators; an empty text has none.
pub fn split(alloc: Global, separator: u16, text: &[u16]) -> Result<ItemList<Text>, OutOfMemory>
    ensures { IfOk result (λ ts. ts ≡ split separator text.now) }
{
    if text.is_empty() {
        return Ok(ItemList::new(alloc));
    }
    parts(alloc, separator, text)
}
