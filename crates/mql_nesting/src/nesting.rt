//! The types that a structure contains.
ghost use Rattle.std.specs.Prelude.{◌≡◌, ◌++◌, IfOk};
ghost use Rattle.std.specs.List.{flat_map};
ghost use Rattle.mql_names.specs.Faults.{told};
ghost use Rattle.mql_names.specs.Scopes.{is_among};
ghost use Rattle.mql_nesting.specs.Nesting as spec;

use crate::structure::{Structure, structures_of};
use fx8::{ItemList, OutOfMemory, Text};
use mql_names::{Broken, break_if, sooner};
use mql_syntax::Syntax;
use std::alloc::Global;

fn is_among(name: &[u16], names: &[Text]) -> bool
    ensures { result ≡ is_among name.now names.now }
{
    let mut rest = names;
    while let [one, others @ ..] = rest {
        if one.as_slice() == name {
            return true;
        }
        rest = others;
    }
    false
}

/// Names with copies of more.
fn with_copies(
    alloc: Global,
    mut found: ItemList<Text>,
    names: &[Text],
) -> Result<ItemList<Text>, OutOfMemory>
    ensures { IfOk result (λ new. new ≡ found ++ names.now) }
{
    for name in names {
        found.push(Text::from_slice(alloc, name.as_slice())?)?;
    }
    Ok(found)
}

fn with_parts_named(
    alloc: Global,
    found: ItemList<Text>,
    name: &[u16],
    s: &Structure,
) -> Result<ItemList<Text>, OutOfMemory>
    ensures { IfOk result (λ new. new ≡ found ++ spec.parts_named name.now s.now) }
{
    if s.name.as_slice() == name {
        with_copies(alloc, found, s.parts.as_slice())
    } else {
        Ok(found)
    }
}

/// Names with the types of the parts of the structures of a name.
fn with_parts_of(
    alloc: Global,
    mut found: ItemList<Text>,
    structures: &[Structure],
    name: &[u16],
) -> Result<ItemList<Text>, OutOfMemory>
    ensures { IfOk result (λ new. new ≡ found ++ spec.parts_of structures.now name.now) }
{
    for s in structures {
        found = with_parts_named(alloc, found, name, s)?;
    }
    Ok(found)
}

/// The types of the parts of the structures of these names.
fn all_parts(
    alloc: Global,
    structures: &[Structure],
    names: &[Text],
) -> Result<ItemList<Text>, OutOfMemory>
    ensures { IfOk result (λ new. new ≡ flat_map (spec.parts_of structures.now) names.now) }
{
    let mut found = ItemList::new(alloc);
    for name in names {
        found = with_parts_of(alloc, found, structures, name.as_slice())?;
    }
    Ok(found)
}

fn with_name(
    alloc: Global,
    mut names: ItemList<Text>,
    name: &[u16],
) -> Result<ItemList<Text>, OutOfMemory>
    ensures { IfOk result (λ new. new ≡ spec.with_name names name.now) }
{
    if is_among(name, names.as_slice()) {
        return Ok(names);
    }
    names.push(Text::from_slice(alloc, name)?)?;
    Ok(names)
}

/// Names, and behind them those of others that are not there yet.
fn joined(
    alloc: Global,
    mut names: ItemList<Text>,
    others: &[Text],
) -> Result<ItemList<Text>, OutOfMemory>
    ensures { IfOk result (λ new. new ≡ spec.joined names others.now) }
{
    let mut rest = others;
    while let [name, behind @ ..] = rest {
        names = with_name(alloc, names, name.as_slice())?;
        rest = behind;
    }
    Ok(names)
}

/// Types, and the types of the parts of each of them.
fn grown(
    alloc: Global,
    structures: &[Structure],
    names: ItemList<Text>,
) -> Result<ItemList<Text>, OutOfMemory>
    ensures { IfOk result (λ new. new ≡ spec.grown structures.now names) }
{
    let parts = all_parts(alloc, structures, names.as_slice())?;
    joined(alloc, names, parts.as_slice())
}

/// So many turns of that; a turn that adds nothing is the last.
fn within(
    alloc: Global,
    structures: &[Structure],
    turns: usize,
    names: ItemList<Text>,
) -> Result<ItemList<Text>, OutOfMemory>
    ensures { IfOk result (λ new. new ≡ spec.within structures.now turns names) }
{
    let mut left = turns;
    let mut found = names;
    while left > 0 {
        let before = found.len();
        found = grown(alloc, structures, found)?;
        if found.len() == before {
            return Ok(found);
        }
        left -= 1;
    }
    Ok(found)
}

/// All types that a structure contains.
fn contained(
    alloc: Global,
    structures: &[Structure],
    name: &[u16],
) -> Result<ItemList<Text>, OutOfMemory>
    ensures { IfOk result (λ new. new ≡ spec.contained structures.now name.now) }
{
    let parts = with_parts_of(alloc, ItemList::new(alloc), structures, name)?;
    let first = joined(alloc, ItemList::new(alloc), parts.as_slice())?;
    within(alloc, structures, structures.len(), first)
}

/// What is told of a structure: that it contains itself.
fn nesting(
    alloc: Global,
    structures: &[Structure],
    s: &Structure,
) -> Result<Option<Broken>, OutOfMemory>
    ensures { IfOk result (λ b. b ≡ told (spec.nesting structures.now s.now)) }
{
    let names = contained(alloc, structures, s.name.as_slice())?;
    Ok(break_if(is_among(s.name.as_slice(), names.as_slice()), 10, s.place))
}

fn all_nesting(alloc: Global, structures: &[Structure]) -> Result<Option<Broken>, OutOfMemory>
    ensures { IfOk result (λ b. b ≡ told (flat_map (spec.nesting structures.now) structures.now)) }
{
    let mut told: Option<Broken> = None;
    for s in structures {
        let one = nesting(alloc, structures, s)?;
        told = sooner(told, one);
    }
    Ok(told)
}

/// What is told of a program's structures: the structure that contains itself (rule 10), of several the
/// first.
#[tactic(auto, unfolding(crate::specs::Nesting::breaks_nesting))]
pub fn nesting_told(alloc: Global, syntax: &Syntax) -> Result<Option<Broken>, OutOfMemory>
    ensures { IfOk result (λ b. b ≡ told (spec.breaks_nesting syntax.now)) }
{
    let structures = structures_of(alloc, syntax.items.as_slice())?;
    all_nesting(alloc, structures.as_slice())
}
