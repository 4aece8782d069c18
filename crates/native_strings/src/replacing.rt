//! Parts of a text replaced (MQL5 Reference, StringReplace).
ghost use Rattle.std.specs.Prelude.{◌≡◌, ◌<◌, length, IfOk};
ghost use Rattle.mql_meaning.specs.StringFunctions.{replaced, replace_in};

use crate::counts::behind;
use crate::searches::begins;
use fx8::{ItemList, OutOfMemory, Text};
use std::alloc::Global;

/// A text and the number of changes that made it.
#[derive(Drop)]
pub struct Counted {
    pub count: u64,
    pub text: Text,
}

/// The text in which a part that has a unit is replaced wherever it stands, from left to right.
fn replaced(alloc: Global, text: &[u16], part: &[u16], by: &[u16]) -> Result<Counted, OutOfMemory>
    requires { 0 < length part.now }
    ensures count { IfOk result (λ c. c.count ≡ (replaced part.now by.now 0 text.now).count) }
    ensures text { IfOk result (λ c. c.text ≡ (replaced part.now by.now 0 text.now).text) }
{
    let mut out = ItemList::new(alloc);
    let mut count = 0u64;
    let mut place = 0usize;
    while place < text.len() {
        if begins(part, behind(text, place as u64)) {
            out.extend_from_slice(by)?;
            count += 1;
            place += part.len();
            continue;
        }
        out.push(text[place])?;
        place += 1;
    }
    Ok(Counted { count, text: out })
}

/// The text in which a part is replaced wherever it stands, from left to right, and how often; an empty part
/// stands nowhere (MQL5 Reference, StringReplace).
pub fn replace_in(
    alloc: Global,
    text: &[u16],
    part: &[u16],
    by: &[u16],
) -> Result<Counted, OutOfMemory>
    ensures count { IfOk result (λ c. c.count ≡ (replace_in text.now part.now by.now).count) }
    ensures text { IfOk result (λ c. c.text ≡ (replace_in text.now part.now by.now).text) }
{
    if part.is_empty() {
        let text = ItemList::from_slice(alloc, text)?;
        return Ok(Counted { count: 0, text });
    }
    replaced(alloc, text, part, by)
}
