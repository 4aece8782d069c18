//! The walk over expressions.
ghost use Rattle.std.specs.Prelude.{◌≡◌, true, option_map, IfOk};
ghost use Rattle.mql_scope.specs.Places.{context_at};
ghost use Rattle.std.specs.Option.{option_copied};
ghost use Rattle.mql_expressions.specs.Views.{node_of, node_at};
ghost use Rattle.mql_expressions.specs.Rules.{callee_of, lowest};
ghost use Rattle.mql_expressions.specs.Made.{chosen_at, number_in, uses};
ghost use Rattle.mql_expressions.specs.Values.{name_at, name_of, name_of_first, called_in, told_parts, behind_info, found_at, found, found_all, founds_of};

use crate::findings::{
    Found, Founds, innermost, kept_by, nothing_found, with_found, with_rule, with_used,
};
use crate::handed::{callee_at, chosen_for, handed_at};
use crate::lowest::lowest;
use crate::made::tells;
use crate::node::{Call, NodeView, Site};
use fx8::OutOfMemory;
use mql_scope::{Here, ProgramFacts};
use mql_syntax::{Operation, Value};
use mql_typed::Info;
use std::alloc::Global;

fn name_at(what: &Operation) -> Option<&[u16]>
    ensures { option_map (λ x. x.now) result ≡ name_at what.now }
{
    match what {
        Operation::Name(x) => Some(x.as_slice()),
        _ => None,
    }
}

fn name_of(v: &Value) -> Option<&[u16]>
    ensures { option_map (λ x. x.now) result ≡ name_of v.now }
{
    match v {
        Value::Node { what, .. } => name_at(what),
    }
}

fn first_name(parts: &[Value]) -> Option<&[u16]>
    ensures { option_map (λ x. x.now) result ≡ name_of_first parts.now }
{
    match parts {
        [] => None,
        [v, ..] => name_of(v),
    }
}

fn called_in<'a>(what: &Operation, parts: &'a [Value]) -> Option<&'a [u16]>
    ensures { option_map (λ x. x.now) result ≡ called_in what.now parts.now }
{
    match what {
        Operation::Call => first_name(parts),
        _ => None,
    }
}

/// The place behind an expression.
fn behind<'a, P: ProgramFacts>(
    here: &Here<'a, P>,
    info: &Option<Info>,
) -> Result<Here<'a, P>, OutOfMemory>
    ensures { IfOk result (λ h. context_at P.program h ≡
        behind_info info.now (context_at P.program here.now)) }
{
    here.behind_values(kept_by(info))
}

/// The lowest broken rule of a node, and what it calls.
#[tactic(auto, unfolding(crate::specs::Made::uses))]
fn asked<'a, P: ProgramFacts>(
    alloc: Global,
    here: &Here<'a, P>,
    n: &NodeView,
) -> Result<(Option<u8>, Call<'a>), OutOfMemory>
    ensures rule { IfOk result (λ r. r.0 ≡ lowest (context_at P.program here.now) (node_of n.now)) }
    ensures callee { IfOk result (λ r. r.1.callee ≡
        callee_of (context_at P.program here.now) (node_of n.now)) }
    ensures chosen { IfOk result (λ r. option_copied r.1.chosen ≡
        chosen_at (context_at P.program here.now) (node_of n.now)) }
    ensures used { IfOk result (λ r. number_in (option_copied r.1.chosen) ≡
        uses (context_at P.program here.now) (node_of n.now)) }
{
    let callee = callee_at(alloc, here, n)?;
    let h = handed_at(alloc, here, n, callee)?;
    let rule = lowest(alloc, here, n, callee, &h)?;
    let chosen = chosen_for(here.program.functions(), &h);
    Ok((rule, Call { callee, chosen }))
}

fn found_at<P: ProgramFacts>(
    alloc: Global,
    here: &Here<'_, P>,
    s: &Site,
    inner: Founds,
) -> Result<Found, OutOfMemory>
    ensures { IfOk result (λ f. f ≡ found_at (context_at P.program here.now) (node_at s.now inner.infos)
        inner.broken inner.used) }
{
    let Founds {
        infos,
        broken,
        used,
    } = inner;
    let n = NodeView {
        place: s.place,
        what: s.what,
        types: s.types,
        called: s.called,
        parts: infos.as_slice(),
    };
    let (rule, call) = asked(alloc, here, &n)?;
    let all = with_rule(broken, s.place, rule)?;
    let told = innermost(alloc, s.place, all)?;
    let calls = with_used(used, call.chosen)?;
    let info = tells(alloc, here, s, &call, infos, rule)?;
    Ok(Found {
        info,
        broken: told,
        used: calls,
    })
}

/// What an expression tells, and what is broken in it.
#[cycle(found)]
pub fn found_in<P: ProgramFacts>(
    alloc: Global,
    here: &Here<'_, P>,
    v: &Value,
) -> Result<Found, OutOfMemory>
    ensures { IfOk result (λ f. f ≡ found (context_at P.program here.now) v.now) }
{
    match v {
        Value::Node {
            place,
            what,
            types,
            parts,
        } => {
            let written = types.as_slice();
            let inside = parts.as_slice();
            let called = called_in(what, inside);
            let s = Site {
                place: *place,
                what,
                types: written,
                called,
            };
            match called {
                None => {
                    let all = found_all(alloc, here, inside)?;
                    found_at(alloc, here, &s, all)
                }
                Some(_) => {
                    let others = found_behind(alloc, here, inside)?;
                    found_at(alloc, here, &s, others)
                }
            }
        }
    }
}

/// The same of the values behind the first.
#[cycle(found)]
fn found_behind<P: ProgramFacts>(
    alloc: Global,
    here: &Here<'_, P>,
    values: &[Value],
) -> Result<Founds, OutOfMemory>
    ensures { IfOk result (λ r. r ≡
        founds_of (found_all (context_at P.program here.now) (told_parts true values.now))) }
{
    match values {
        [] => found_all(alloc, here, values),
        [_, others @ ..] => found_all(alloc, here, others),
    }
}

/// What expressions tell, one after another, and what is broken in them: behind each its locals are taken.
#[cycle(found)]
pub fn found_all<P: ProgramFacts>(
    alloc: Global,
    here: &Here<'_, P>,
    values: &[Value],
) -> Result<Founds, OutOfMemory>
    ensures { IfOk result (λ r. r ≡ founds_of (found_all (context_at P.program here.now) values.now)) }
{
    let mut at = *here;
    let mut all = nothing_found(alloc);
    for v in values {
        let f = found_in(alloc, &at, v)?;
        at = behind(&at, &f.info)?;
        all = with_found(all, f)?;
    }
    Ok(all)
}
