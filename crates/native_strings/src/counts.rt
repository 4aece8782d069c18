//! Places in lists, and numbers of units.
ghost use Rattle.std.specs.Prelude.{◌≡◌, ◌≤◌, take, drop, IfSome};
ghost use Rattle.mql_meaning.specs.StringFunctions.{place_in, count_in, part_of, width_of};
ghost use Rattle.mql_meaning.specs.Natives.{unit_at};

/// The place that a number stands for in a list of so many: from 0 to the length, which is the end; `None`
/// exactly for any other number.
pub fn place_in(number: i128, size: u64) -> Option<u64>
    ensures value { result ≡ place_in number size }
    ensures at_most { IfSome result (λ place. place ≤ size) }
{
    if number < 0 {
        return None;
    }
    if number <= size as i128 {
        Some(number as u64)
    } else {
        None
    }
}

/// How many of so many things a number asks for: all at -1, else at most so many; `None` exactly below -1.
pub fn count_in(number: i128, size: u64) -> Option<u64>
    ensures value { result ≡ count_in number size }
    ensures at_most { IfSome result (λ count. count ≤ size) }
{
    if number < -1 {
        return None;
    }
    if number == -1 {
        return Some(size);
    }
    if number <= size as i128 {
        Some(number as u64)
    } else {
        Some(size)
    }
}

/// The width that a number stands for: none below 0.
pub fn width_of(number: i128) -> u128
    ensures { result ≡ width_of number }
{
    if number < 0 { 0 } else { number as u128 }
}

/// What stands behind a place; nothing where the place is past the end.
#[tactic(auto, using(crate::proofs::Lists::behind_is, crate::proofs::Lists::behind_end))]
pub fn behind(text: &[u16], place: u64) -> &[u16]
    ensures { result.now ≡ drop place text.now }
{
    if place >= text.len() as u64 {
        return &[];
    }
    &text[place as usize..]
}

/// At most so many units of a text.
pub(crate) fn first_of(text: &[u16], count: u64) -> &[u16]
    ensures { result.now ≡ take count text.now }
{
    if count >= text.len() as u64 {
        return text;
    }
    &text[..count as usize]
}

/// The part of a text from a place on, of at most so many units (MQL5 Reference, StringSubstr).
pub fn part_of(text: &[u16], start: u64, count: u64) -> &[u16]
    ensures { result.now ≡ part_of text.now start count }
{
    first_of(behind(text, start), count)
}

/// The unit at the place that a number stands for; `None` exactly where there is none (MQL5 Reference,
/// StringGetCharacter).
pub fn unit_at(text: &[u16], number: i128) -> Option<u16>
    ensures { result ≡ unit_at text.now number }
{
    let place = place_in(number, text.len() as u64)?;
    text.get(place as usize).copied()
}
