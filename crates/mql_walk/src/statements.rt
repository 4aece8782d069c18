//! The walk over statements.
ghost use Rattle.std.specs.Prelude.{◌≡◌, ℕ, Bool, List, [], ◌∷◌, ◌++◌, map, IfOk};
ghost use Rattle.std.specs.List.{flat_map};
ghost use Rattle.mql_names.specs.Things.{own_locals, shares, behind};
ghost use Rattle.mql_walk.specs.Things.{told_by, variables_things, statement_things, list_things, all_behind};

use crate::judge::Judge;
use crate::values::{values_told, variables_told, with_locals};
use fx8::{ItemList, OutOfMemory, Text};
use mql_names::{Broken, own_locals, shares, sooner};
use mql_syntax::{Statement, Variable};
use std::alloc::Global;

/// What is told of the variables of a statement; the names of the locals in force stay.
fn own_told<J: Judge>(
    alloc: Global,
    judge: &J,
    locals: ItemList<Text>,
    own: &[Variable],
) -> Result<(Option<Broken>, ItemList<Text>), OutOfMemory>
    ensures { IfOk result (λ r. (r.0 ≡ told_by (J.breaks judge.now) (variables_things locals own.now))
        × (r.1 ≡ locals)) }
{
    let count = locals.len();
    let (told, mut behind) = variables_told(alloc, judge, locals, own)?;
    behind.truncate(count);
    Ok((told, behind))
}

/// The names of the locals in force behind a statement, which may share its scope with what stands there.
pub fn behind(
    alloc: Global,
    shared: bool,
    locals: ItemList<Text>,
    s: &Statement,
) -> Result<ItemList<Text>, OutOfMemory>
    ensures { IfOk result (λ new. new ≡ behind shared locals s.now) }
{
    if shared {
        with_locals(alloc, locals, own_locals(s))
    } else {
        Ok(locals)
    }
}

/// What is told of a statement; the names of the locals in force stay.
#[cycle(statements)]
fn statement_told<J: Judge>(
    alloc: Global,
    judge: &J,
    locals: ItemList<Text>,
    s: &Statement,
) -> Result<(Option<Broken>, ItemList<Text>), OutOfMemory>
    ensures { IfOk result (λ r. (r.0 ≡ told_by (J.breaks judge.now) (statement_things locals s.now))
        × (r.1 ≡ locals)) }
{
    match s {
        Statement::Node {
            place,
            what,
            locals: own,
            values,
            parts,
        } => {
            let at = judge.on_statement(*place, *what);
            let (variables, locals) = own_told(alloc, judge, locals, own.as_slice())?;
            let inner = values_told(judge, locals.as_slice(), values.as_slice());
            let (rest, locals) = parts_told(alloc, judge, shares(*what), locals, parts.as_slice())?;
            Ok((sooner(at, sooner(variables, sooner(inner, rest))), locals))
        }
    }
}

/// What is told of statements, one after another, and the names of the locals in force behind them.
#[cycle(statements)]
fn each_told<J: Judge>(
    alloc: Global,
    judge: &J,
    shared: bool,
    locals: ItemList<Text>,
    parts: &[Statement],
) -> Result<(Option<Broken>, ItemList<Text>), OutOfMemory>
    ensures { IfOk result (λ r. (r.0 ≡ told_by (J.breaks judge.now) (list_things shared locals parts.now))
        × (r.1 ≡ all_behind shared locals parts.now)) }
{
    let mut told: Option<Broken> = None;
    let mut inner = locals;
    for s in parts {
        let (one, back) = statement_told(alloc, judge, inner, s)?;
        told = sooner(told, one);
        inner = behind(alloc, shared, back, s)?;
    }
    Ok((told, inner))
}

/// What is told of statements, one after another; the names of the locals in force stay.
#[cycle(statements)]
pub(crate) fn parts_told<J: Judge>(
    alloc: Global,
    judge: &J,
    shared: bool,
    locals: ItemList<Text>,
    parts: &[Statement],
) -> Result<(Option<Broken>, ItemList<Text>), OutOfMemory>
    ensures { IfOk result (λ r. (r.0 ≡ told_by (J.breaks judge.now) (list_things shared locals parts.now))
        × (r.1 ≡ locals)) }
{
    let count = locals.len();
    let (told, mut behind) = each_told(alloc, judge, shared, locals, parts)?;
    behind.truncate(count);
    Ok((told, behind))
}
