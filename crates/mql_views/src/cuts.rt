//! Cutting a list of parts from the front.
ghost use Rattle.std.specs.Prelude.{◌≡◌, ◌≤◌, ◌+◌, false, [], ◌∷◌, length, map, take, drop, MatchOption, option_map};
ghost use Rattle.mql_views.specs.Cuts.{run, until, split, must, next, last, sign, may, may_be, up_to, all_to, piece_end};
ghost use Rattle.mql_views.specs.Seen.{part_seen, seen, all, cut_seen, may_seen, split_seen, may_be_seen};

use crate::part::{Part, is};
use mql_forms::Form;
use mql_grammar::Class;

/// The first of the parts, and those behind it.
pub fn parted<'a>(parts: &'a [Part<'a>]) -> Option<(Part<'a>, &'a [Part<'a>])>
    ensures { MatchOption result (seen parts.now ≡ [])
        (λ cut. seen parts.now ≡ part_seen cut.0 ∷ seen cut.1.now) }
{
    match parts.split_first() {
        None => None,
        Some((first, rest)) => Some((*first, rest)),
    }
}

/// How many parts at the front are such tokens.
pub(crate) fn run(wanted: &[Class], parts: &[Part]) -> usize
    ensures count { result ≡ run wanted.now (seen parts.now) }
    ensures within { result ≤ length parts.now }
{
    let mut count = 0;
    for part in parts {
        if !is(wanted, &[], *part) {
            return count;
        }
        count += 1;
    }
    count
}

/// How many parts stand before the first that is so.
pub(crate) fn until(wanted: &[Class], forms: &[Form], parts: &[Part]) -> usize
    ensures count { result ≡ until wanted.now forms.now (seen parts.now) }
    ensures within { result ≤ length parts.now }
{
    let mut count = 0;
    for part in parts {
        if is(wanted, forms, *part) {
            return count;
        }
        count += 1;
    }
    count
}

/// The parts before a place and those from it on.
pub(crate) fn split<'a>(at: usize, parts: &'a [Part<'a>]) -> (&'a [Part<'a>], &'a [Part<'a>])
    requires { at ≤ length parts.now }
    ensures cut { split_seen result ≡ split at (seen parts.now) }
    ensures whole { length result.0.now + length result.1.now ≡ length parts.now }
{
    parts.split_at(at)
}

/// The front part, which is one of these, and the parts behind it.
#[tactic(auto, unfolding(crate::specs::Cuts::must))]
pub fn must<'a>(
    wanted: &[Class],
    forms: &[Form],
    parts: &'a [Part<'a>],
) -> Option<(Part<'a>, &'a [Part<'a>])>
    ensures { option_map cut_seen result ≡ must wanted.now forms.now (seen parts.now) }
{
    match parted(parts) {
        None => None,
        Some((first, rest)) => {
            if is(wanted, forms, first) {
                Some((first, rest))
            } else {
                None
            }
        }
    }
}

/// The front part, whatever it is, and the parts behind it.
pub fn next<'a>(parts: &'a [Part<'a>]) -> Option<(Part<'a>, &'a [Part<'a>])>
    ensures { option_map cut_seen result ≡ next (seen parts.now) }
{
    match parted(parts) {
        None => None,
        Some(cut) => Some(cut),
    }
}

/// The one part that there is.
pub fn last<'a>(parts: &'a [Part<'a>]) -> Option<Part<'a>>
    ensures { option_map part_seen result ≡ last (seen parts.now) }
{
    match parted(parts) {
        None => None,
        Some((first, rest)) => match parted(rest) {
            None => Some(first),
            Some(_) => None,
        },
    }
}

/// The parts behind the front one, if it is one of these tokens.
#[tactic(auto, unfolding(crate::specs::Cuts::sign))]
pub fn sign<'a>(wanted: &[Class], parts: &'a [Part<'a>]) -> Option<&'a [Part<'a>]>
    ensures { option_map all result ≡ sign wanted.now (seen parts.now) }
{
    match parted(parts) {
        None => None,
        Some((first, rest)) => {
            if is(wanted, &[], first) {
                Some(rest)
            } else {
                None
            }
        }
    }
}

/// Whether the front part is one of these tokens, and the parts behind it.
#[tactic(auto, unfolding(crate::specs::Cuts::may))]
pub fn may<'a>(wanted: &[Class], parts: &'a [Part<'a>]) -> (bool, &'a [Part<'a>])
    ensures { may_seen result ≡ may wanted.now (seen parts.now) }
{
    match parted(parts) {
        None => (false, parts),
        Some((first, rest)) => {
            if is(wanted, &[], first) {
                (true, rest)
            } else {
                (false, parts)
            }
        }
    }
}

/// The front part if it is one of these tokens, and the parts behind it.
#[tactic(auto, unfolding(crate::specs::Cuts::may_be))]
pub(crate) fn may_be<'a>(
    wanted: &[Class],
    parts: &'a [Part<'a>],
) -> (Option<Part<'a>>, &'a [Part<'a>])
    ensures { may_be_seen result ≡ may_be wanted.now (seen parts.now) }
{
    match parted(parts) {
        None => (None, parts),
        Some((first, rest)) => {
            if is(wanted, &[], first) {
                (Some(first), rest)
            } else {
                (None, parts)
            }
        }
    }
}

/// The parts up to a token, and those behind it.
#[tactic(auto, unfolding(crate::specs::Cuts::up_to))]
pub fn up_to<'a>(wanted: Class, parts: &'a [Part<'a>]) -> Option<(&'a [Part<'a>], &'a [Part<'a>])>
    ensures { option_map split_seen result ≡ up_to wanted (seen parts.now) }
{
    let (front, rest) = split(until(&[wanted], &[], parts), parts);
    match sign(&[wanted], rest) {
        None => None,
        Some(rest) => Some((front, rest)),
    }
}

/// All parts up to a token, which is the last.
#[tactic(auto, unfolding(crate::specs::Cuts::all_to))]
pub fn all_to<'a>(wanted: Class, parts: &'a [Part<'a>]) -> Option<&'a [Part<'a>]>
    ensures { option_map all result ≡ all_to wanted (seen parts.now) }
{
    let (front, rest) = up_to(wanted, parts)?;
    match parted(rest) {
        None => Some(front),
        Some(_) => None,
    }
}

/// How many parts stand before the first comma that is in no parentheses.
fn piece_end(parts: &[Part]) -> usize
    ensures count { result ≡ piece_end false (seen parts.now) }
    ensures within { result ≤ length parts.now }
{
    let mut inside = false;
    let mut count = 0;
    for part in parts {
        if is(&[Class::OpenParen], &[], *part) {
            inside = true;
        } else if is(&[Class::CloseParen], &[], *part) {
            inside = false;
        } else if !inside {
            if is(&[Class::Comma], &[], *part) {
                return count;
            }
        }
        count += 1;
    }
    count
}

/// The parts before the first comma that is in no parentheses, and those from it on.
pub fn piece<'a>(parts: &'a [Part<'a>]) -> (&'a [Part<'a>], &'a [Part<'a>])
    ensures cut { split_seen result ≡ split (piece_end false (seen parts.now)) (seen parts.now) }
    ensures whole { length result.0.now + length result.1.now ≡ length parts.now }
{
    split(piece_end(parts), parts)
}
