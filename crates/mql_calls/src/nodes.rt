//! What the parts of a node tell.
ghost use Rattle.std.specs.Prelude.{◌≡◌, is_some, slice_get, IfOk};
ghost use Rattle.std.specs.Option.{option_copied};
ghost use Rattle.mql_calls.specs.Nodes.{nth, is_void, is_whole_array, no_place, is_constant, is_of_input, told, argument, arguments, arguments_in};

use fx8::{ItemList, OutOfMemory, Stack};
use mql_typed::Info;
use mql_types::Argument;
use std::alloc::Global;

fn part_at(n: usize, parts: &[Option<Info>]) -> Option<&Option<Info>>
    ensures { option_copied result ≡ slice_get parts.now n }
{
    parts.get(n)
}

/// The part at a place, from 0 on; none where there is no part, or it tells nothing.
pub fn nth(n: usize, parts: &[Option<Info>]) -> Option<&Info>
    ensures { option_copied result ≡ nth n parts.now }
{
    match part_at(n, parts) {
        None => None,
        Some(part) => part.as_ref(),
    }
}

/// Whether an expression gives nothing.
pub fn is_void(i: &Info) -> bool
    ensures { result ≡ is_void i.now }
{
    i.of.is_none()
}

/// Whether an expression is an array.
pub fn is_whole_array(i: &Info) -> bool
    ensures { result ≡ is_whole_array i.now }
{
    match i.of {
        None => false,
        Some(t) => t.dimensions.is_array(),
    }
}

/// Whether an expression is no place that may be assigned or lent.
pub fn no_place(i: &Info) -> bool
    ensures { result ≡ no_place i.now }
{
    !i.standing.is_lasting()
}

/// Whether an expression is a constant, and no input.
pub fn is_constant(i: &Info) -> bool
    ensures { result ≡ is_constant i.now }
{
    i.standing.is_fixed() && !i.standing.is_input()
}

/// Whether an expression is an input.
pub fn is_of_input(i: &Info) -> bool
    ensures { result ≡ is_of_input i.now }
{
    i.standing.is_input()
}

/// Whether each part tells something.
pub fn are_told(parts: &[Option<Info>]) -> bool
    ensures { result ≡ is_some (told parts.now) }
{
    let mut rest = parts;
    while let [part, others @ ..] = rest {
        if part.is_none() {
            return false;
        }
        rest = others;
    }
    true
}

/// The parts, where each tells something.
pub fn told(
    alloc: Global,
    parts: ItemList<Option<Info>>,
) -> Result<Option<ItemList<Info>>, OutOfMemory>
    ensures { IfOk result (λ r. r ≡ told parts) }
{
    let mut infos = ItemList::new(alloc);
    let mut left = Stack::of_list(parts);
    while let Some(part) = left.pop() {
        match part {
            None => {
                return Ok(None);
            }
            Some(i) => {
                infos.push(i)?;
            }
        }
    }
    Ok(Some(infos))
}

/// The argument that an expression is; none where it gives nothing.
pub fn argument(i: &Info) -> Option<Argument>
    ensures { result ≡ argument i.now }
{
    match i.of {
        None => None,
        Some(t) => Some(Argument {
            of: t,
            place: i.standing.is_lasting(),
            fixed: i.standing.is_fixed(),
        }),
    }
}

/// The arguments that expressions are, where each gives something.
pub fn arguments(alloc: Global, infos: &[Info]) -> Result<Option<ItemList<Argument>>, OutOfMemory>
    ensures { IfOk result (λ r. r ≡ arguments infos.now) }
{
    let mut given = ItemList::new(alloc);
    let mut rest = infos;
    while let [i, others @ ..] = rest {
        match argument(i) {
            None => {
                return Ok(None);
            }
            Some(a) => {
                given.push(a)?;
            }
        }
        rest = others;
    }
    Ok(Some(given))
}

/// The arguments that parts are, where each tells something and gives something.
pub fn arguments_of(
    alloc: Global,
    parts: &[Option<Info>],
) -> Result<Option<ItemList<Argument>>, OutOfMemory>
    ensures { IfOk result (λ r. r ≡ arguments_in (told parts.now)) }
{
    let mut given = ItemList::new(alloc);
    let mut rest = parts;
    while let [part, others @ ..] = rest {
        match part {
            None => {
                return Ok(None);
            }
            Some(i) => match argument(i) {
                None => {
                    return Ok(None);
                }
                Some(a) => {
                    given.push(a)?;
                }
            },
        }
        rest = others;
    }
    Ok(Some(given))
}
