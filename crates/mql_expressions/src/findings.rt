//! What is found in an expression.
ghost use Rattle.std.specs.Option.{option_copied};
ghost use Rattle.std.specs.Prelude.{◌≡◌, [], ◌++◌, IfOk};
ghost use Rattle.mql_expressions.specs.Values.{below, innermost, broken_at, kept_by, founds_of, with_found};
ghost use Rattle.mql_expressions.specs.Made.{number_in};

use fx8::{ItemList, OutOfMemory};
use mql_meaning::VarType;
use mql_names::Broken;
use mql_syntax::Place;
use mql_typed::Info;
use mql_types::Signature;
use std::alloc::Global;

/// What an expression tells, and what is broken in it.
#[derive(Drop)]
pub struct Found {
    /// None where it breaks a rule.
    pub info: Option<Info>,
    /// The broken rules that may be told of: those of nodes that break one where none below them does.
    pub broken: ItemList<Broken>,
    /// The numbers of the functions of the program that calls in it choose.
    pub used: ItemList<u32>,
}

/// What expressions tell, one after another, and what is broken in them.
#[derive(Drop)]
pub struct Founds {
    pub infos: ItemList<Option<Info>>,
    pub broken: ItemList<Broken>,
    pub used: ItemList<u32>,
}

/// What is found in no expressions.
pub(crate) fn nothing_found(alloc: Global) -> Founds
    ensures { result ≡ founds_of [] }
{
    Founds {
        infos: ItemList::new(alloc),
        broken: ItemList::new(alloc),
        used: ItemList::new(alloc),
    }
}

/// What is found in expressions, and in one behind them.
pub(crate) fn with_found(all: Founds, f: Found) -> Result<Founds, OutOfMemory>
    ensures { IfOk result (λ r. r ≡ with_found all f) }
{
    let Founds {
        mut infos,
        mut broken,
        mut used,
    } = all;
    let Found {
        info,
        broken: below,
        used: calls,
    } = f;
    infos.push(info)?;
    broken.append(below)?;
    used.append(calls)?;
    Ok(Founds {
        infos,
        broken,
        used,
    })
}

fn below(alloc: Global, at: u32, all: &[Broken]) -> Result<ItemList<Broken>, OutOfMemory>
    ensures { IfOk result (λ r. r ≡ below at all.now) }
{
    let mut inner = ItemList::new(alloc);
    let mut rest = all;
    while let [b, others @ ..] = rest {
        if b.node != at {
            inner.push(*b)?;
        }
        rest = others;
    }
    Ok(inner)
}

/// Of what is broken at a node and in its parts: what is below it, if there is any.
pub fn innermost(
    alloc: Global,
    place: Place,
    all: ItemList<Broken>,
) -> Result<ItemList<Broken>, OutOfMemory>
    ensures { IfOk result (λ r. r ≡ innermost place all) }
{
    let inner = below(alloc, place.at, all.as_slice())?;
    if inner.is_empty() {
        return Ok(all);
    }
    Ok(inner)
}

/// What is broken, and a rule that is broken at a place behind it, if there is one.
pub fn with_rule(
    mut all: ItemList<Broken>,
    place: Place,
    rule: Option<u8>,
) -> Result<ItemList<Broken>, OutOfMemory>
    ensures { IfOk result (λ r. r ≡ all ++ broken_at place rule) }
{
    match rule {
        None => Ok(all),
        Some(number) => {
            all.push(Broken {
                rule: number,
                node: place.at,
                first: place.first,
            })?;
            Ok(all)
        }
    }
}

/// The locals that an expression takes.
pub fn kept_by(info: &Option<Info>) -> &[VarType]
    ensures { result.now ≡ kept_by info.now }
{
    match info {
        None => &[],
        Some(i) => i.kept.as_slice(),
    }
}

/// The functions that are used, and one more behind them, if there is one.
pub(crate) fn with_used(
    mut used: ItemList<u32>,
    f: Option<&Signature>,
) -> Result<ItemList<u32>, OutOfMemory>
    ensures { IfOk result (λ r. r ≡ used ++ number_in (option_copied f.entry)) }
{
    match f {
        None => Ok(used),
        Some(g) => {
            used.push(g.number)?;
            Ok(used)
        }
    }
}
