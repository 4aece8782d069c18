//! Lists of parts.
ghost use Rattle.std.specs.Prelude.{◌≡◌, ◌++◌, IfOk, map};
ghost use Rattle.mql_views.specs.Seen.{part_seen, seen, all};
ghost use Rattle.mql_syntax.specs.Lists.{without, enclosed, divides, pieces};

use fx8::{ItemList, OutOfMemory};
use mql_grammar::Class;
use mql_views::{Part, is_token};
use std::alloc::Global;

/// These parts, and then those of others that are no tokens of these classes.
pub fn without<'a>(
    first: ItemList<Part<'a>>,
    dropped: &[Class],
    parts: &'a [Part<'a>],
) -> Result<ItemList<Part<'a>>, OutOfMemory>
    ensures { IfOk result (λ found. seen found ≡ seen first.entry ++ without dropped.now (seen parts.now)) }
{
    let mut found = first;
    for part in parts {
        if !is_token(dropped, *part) {
            found.push(*part)?;
        }
    }
    Ok(found)
}

/// Whether the parts behind a part stand in parentheses.
fn enclosed(inside: bool, part: Part) -> bool
    ensures { result ≡ enclosed inside (part_seen part.entry) }
{
    if is_token(&[Class::OpenParen], part) {
        true
    } else if is_token(&[Class::CloseParen], part) {
        false
    } else {
        inside
    }
}

/// Whether a part is a comma that is in no parentheses.
fn divides(inside: bool, part: Part) -> bool
    ensures { result ≡ divides inside (part_seen part.entry) }
{
    is_token(&[Class::Comma], part) && !inside
}

/// The pieces between commas that are in no parentheses.
pub fn pieces<'a>(
    alloc: Global,
    parts: &'a [Part<'a>],
) -> Result<ItemList<&'a [Part<'a>]>, OutOfMemory>
    ensures { IfOk result (λ found. map all found ≡ pieces (seen parts.now)) }
{
    let mut found = ItemList::new(alloc);
    let mut inside = false;
    let mut start = 0;
    for (place, part) in parts.iter().enumerate() {
        if divides(inside, *part) {
            found.push(&parts[start..place])?;
            start = place + 1;
        } else {
            inside = enclosed(inside, *part);
        }
    }
    if start < parts.len() {
        found.push(&parts[start..])?;
    }
    Ok(found)
}
