//! What a statement tells of its declared variables, its values and its parts.
ghost use Rattle.std.specs.Prelude.{◌≡◌, [], ◌++◌, drop, IfOk};
ghost use Rattle.mql_scope.specs.Places.{context_at};
ghost use Rattle.mql_expressions.specs.Values.{innermost, broken_at};
ghost use Rattle.mql_statements.specs.Told.{joined, in_force};
ghost use Rattle.mql_statements.specs.Rules.{lowest};
ghost use Rattle.mql_typed_statements.specs.Statements.{nth_told, labels_for, shared_inner, single_inner, inner_of, shares, statements, own_scope, told_by};

use fx8::{ItemList, OutOfMemory, Stack};
use mql_expressions::{Founds, innermost, with_rule};
use mql_meaning::{Statement, VarType};
use mql_names::Broken;
use mql_scope::{Here, Known, ProgramFacts};
use mql_statements::{Label, Static, Told, joined, lowest, nothing_told};
use mql_syntax::{Place, StatementKind, Value};
use mql_typed::Info;
use mql_typed_statements::{Inner, beginning, in_block, label_of, statements};
use mql_types::Base;
use std::alloc::Global;

/// What a part is told that is a scope of its own.
pub fn own_scope(alloc: Global, line: u32, first: u32, t: Told) -> Result<Told, OutOfMemory>
    ensures { IfOk result (λ r. r ≡ own_scope line first t) }
{
    let begins = beginning(alloc, line, first, &t)?;
    let Told {
        typed,
        kept,
        declared: _,
        statics,
        labels,
        broken,
        used,
    } = t;
    let typed = in_block(alloc, line, begins, typed)?;
    Ok(Told {
        typed,
        kept,
        declared: ItemList::new(alloc),
        statics,
        labels,
        broken,
        used,
    })
}

/// Whether the parts of a statement share one scope.
pub fn shares(what: StatementKind) -> bool
    ensures { result ≡ shares what }
{
    match what {
        StatementKind::Block | StatementKind::Switch => true,
        _ => false,
    }
}

/// What is told besides typed statements, locals, declared variables and labels.
#[derive(Drop)]
struct Gathered {
    statics: ItemList<Static>,
    broken: ItemList<Broken>,
    used: ItemList<u32>,
}

/// The typed statements, and what else is told.
fn opened(t: Told) -> (ItemList<Statement>, Gathered)
    ensures typed { result.0 ≡ t.typed }
    ensures statics { result.1.statics ≡ t.statics }
    ensures broken { result.1.broken ≡ t.broken }
    ensures used { result.1.used ≡ t.used }
{
    let Told {
        typed,
        statics,
        broken,
        used,
        ..
    } = t;
    let others = Gathered {
        statics,
        broken,
        used,
    };
    (typed, others)
}

/// What else is told.
fn rest_of(t: Told) -> Gathered
    ensures statics { result.statics ≡ t.statics }
    ensures broken { result.broken ≡ t.broken }
    ensures used { result.used ≡ t.used }
{
    Gathered {
        statics: t.statics,
        broken: t.broken,
        used: t.used,
    }
}

/// One behind the other.
fn gathered_then(a: Gathered, b: Gathered) -> Result<Gathered, OutOfMemory>
    ensures statics { IfOk result (λ g. g.statics ≡ a.statics ++ b.statics) }
    ensures broken { IfOk result (λ g. g.broken ≡ a.broken ++ b.broken) }
    ensures used { IfOk result (λ g. g.used ≡ a.used ++ b.used) }
{
    let Gathered {
        mut statics,
        mut broken,
        mut used,
    } = a;
    statics.append(b.statics)?;
    broken.append(b.broken)?;
    used.append(b.used)?;
    Ok(Gathered {
        statics,
        broken,
        used,
    })
}

/// The parts of a statement, and what else is told of them.
#[derive(Drop)]
struct Parted {
    inner: Inner,
    others: Gathered,
}

/// The labels of the scope that parts share.
fn labels_for(alloc: Global, what: StatementKind, labels: ItemList<Label>) -> ItemList<Label>
    ensures { result ≡ labels_for what labels }
{
    match what {
        StatementKind::Switch => labels,
        _ => ItemList::new(alloc),
    }
}

/// The parts of a scope.
fn shared_with(alloc: Global, what: StatementKind, begins: ItemList<Statement>, t: Told) -> Parted
    ensures begins { result.inner.begins ≡ begins }
    ensures typed { result.inner.typed ≡ t.typed }
    ensures second { result.inner.second ≡ [] }
    ensures labels { result.inner.labels ≡ labels_for what t.labels }
    ensures statics { result.others.statics ≡ t.statics }
    ensures broken { result.others.broken ≡ t.broken }
    ensures used { result.others.used ≡ t.used }
{
    let Told {
        typed,
        statics,
        labels,
        broken,
        used,
        ..
    } = t;
    Parted {
        inner: Inner {
            begins,
            typed,
            second: ItemList::new(alloc),
            labels: labels_for(alloc, what, labels),
        },
        others: Gathered {
            statics,
            broken,
            used,
        },
    }
}

/// Parts that share a scope.
fn shared_parts(
    alloc: Global,
    what: StatementKind,
    line: u32,
    first: u32,
    t: Told,
) -> Result<Parted, OutOfMemory>
    ensures inner { IfOk result (λ r. r.inner ≡ shared_inner what line first t) }
    ensures statics { IfOk result (λ r. r.others.statics ≡ t.statics) }
    ensures broken { IfOk result (λ r. r.others.broken ≡ t.broken) }
    ensures used { IfOk result (λ r. r.others.used ≡ t.used) }
{
    let begins = beginning(alloc, line, first, &t)?;
    Ok(shared_with(alloc, what, begins, t))
}

/// The next part, or nothing.
fn next_told(alloc: Global, parts: &mut Stack<Told>) -> Told
    ensures next { result ≡ nth_told 0 parts.old }
    ensures rest { parts.new ≡ drop 1 parts.old }
{
    match parts.pop() {
        None => nothing_told(alloc),
        Some(t) => t,
    }
}

/// What is told of parts, and of others behind them.
fn with_parts(all: Gathered, parts: Stack<Told>) -> Result<Gathered, OutOfMemory>
    ensures statics { IfOk result (λ r. r.statics ≡ all.statics ++ (joined parts).statics) }
    ensures broken { IfOk result (λ r. r.broken ≡ all.broken ++ (joined parts).broken) }
    ensures used { IfOk result (λ r. r.used ≡ all.used ++ (joined parts).used) }
{
    let mut gathered = all;
    let mut rest = parts;
    while let Some(t) = rest.pop() {
        gathered = gathered_then(gathered, rest_of(t))?;
    }
    Ok(gathered)
}

/// What is told of two parts and of others.
fn all_gathered(one: Gathered, two: Gathered, rest: Stack<Told>) -> Result<Gathered, OutOfMemory>
    ensures statics { IfOk result (λ r. r.statics ≡ (one.statics ++ two.statics) ++ (joined rest).statics) }
    ensures broken { IfOk result (λ r. r.broken ≡ (one.broken ++ two.broken) ++ (joined rest).broken) }
    ensures used { IfOk result (λ r. r.used ≡ (one.used ++ two.used) ++ (joined rest).used) }
{
    let both = gathered_then(one, two)?;
    with_parts(both, rest)
}

/// The typed statements of a first and a second part, and what else is told of these.
fn both_opened(
    alloc: Global,
    begins: ItemList<Statement>,
    t: Told,
    u: Told,
) -> (Inner, Gathered, Gathered)
    ensures begins { result.0.begins ≡ begins }
    ensures typed { result.0.typed ≡ t.typed }
    ensures second { result.0.second ≡ u.typed }
    ensures labels { result.0.labels ≡ [] }
    ensures statics { result.1.statics ≡ t.statics }
    ensures broken { result.1.broken ≡ t.broken }
    ensures used { result.1.used ≡ t.used }
    ensures more_statics { result.2.statics ≡ u.statics }
    ensures more_broken { result.2.broken ≡ u.broken }
    ensures more_used { result.2.used ≡ u.used }
{
    let (typed, one) = opened(t);
    let (second, two) = opened(u);
    let inner = Inner {
        begins,
        typed,
        second,
        labels: ItemList::new(alloc),
    };
    (inner, one, two)
}

/// A first and a second part, and what else is told of others.
fn first_with(
    alloc: Global,
    begins: ItemList<Statement>,
    t: Told,
    u: Told,
    rest: Stack<Told>,
) -> Result<Parted, OutOfMemory>
    ensures begins { IfOk result (λ r. r.inner.begins ≡ begins) }
    ensures typed { IfOk result (λ r. r.inner.typed ≡ t.typed) }
    ensures second { IfOk result (λ r. r.inner.second ≡ u.typed) }
    ensures labels { IfOk result (λ r. r.inner.labels ≡ []) }
    ensures statics { IfOk result (λ r. r.others.statics ≡ (t.statics ++ u.statics) ++ (joined rest).statics) }
    ensures broken { IfOk result (λ r. r.others.broken ≡ (t.broken ++ u.broken) ++ (joined rest).broken) }
    ensures used { IfOk result (λ r. r.others.used ≡ (t.used ++ u.used) ++ (joined rest).used) }
{
    let (inner, one, two) = both_opened(alloc, begins, t, u);
    let others = all_gathered(one, two, rest)?;
    Ok(Parted { inner, others })
}

/// A first and a second part, and others.
fn first_parts(
    alloc: Global,
    line: u32,
    first: u32,
    t: Told,
    u: Told,
    rest: Stack<Told>,
) -> Result<Parted, OutOfMemory>
    ensures inner { IfOk result (λ r. r.inner ≡ single_inner line first t u) }
    ensures statics { IfOk result (λ r. r.others.statics ≡ (t.statics ++ u.statics) ++ (joined rest).statics) }
    ensures broken { IfOk result (λ r. r.others.broken ≡ (t.broken ++ u.broken) ++ (joined rest).broken) }
    ensures used { IfOk result (λ r. r.others.used ≡ (t.used ++ u.used) ++ (joined rest).used) }
{
    let begins = beginning(alloc, line, first, &t)?;
    first_with(alloc, begins, t, u, rest)
}

/// Parts that share no scope.
#[tactic(auto, using(crate::proofs::Parted::second_next, crate::proofs::Parted::statics_parted, crate::proofs::Parted::broken_parted, crate::proofs::Parted::used_parted))]
fn single_parts(
    alloc: Global,
    line: u32,
    first: u32,
    parts: ItemList<Told>,
) -> Result<Parted, OutOfMemory>
    ensures inner { IfOk result (λ r. r.inner ≡ single_inner line first (nth_told 0 parts) (nth_told 1 parts)) }
    ensures statics { IfOk result (λ r. r.others.statics ≡ (joined parts).statics) }
    ensures broken { IfOk result (λ r. r.others.broken ≡ (joined parts).broken) }
    ensures used { IfOk result (λ r. r.others.used ≡ (joined parts).used) }
{
    let mut rest = Stack::of_list(parts);
    let one = next_told(alloc, &mut rest);
    let two = next_told(alloc, &mut rest);
    first_parts(alloc, line, first, one, two, rest)
}

/// The parts of a statement.
fn parts_of(
    alloc: Global,
    what: StatementKind,
    line: u32,
    first: u32,
    parts: ItemList<Told>,
) -> Result<Parted, OutOfMemory>
    ensures inner { IfOk result (λ r. r.inner ≡ inner_of what line first parts) }
    ensures statics { IfOk result (λ r. r.others.statics ≡ (joined parts).statics) }
    ensures broken { IfOk result (λ r. r.others.broken ≡ (joined parts).broken) }
    ensures used { IfOk result (λ r. r.others.used ≡ (joined parts).used) }
{
    if shares(what) {
        let t = joined(alloc, parts)?;
        shared_parts(alloc, what, line, first, t)
    } else {
        single_parts(alloc, line, first, parts)
    }
}

/// What is broken in a statement: in its declared variables, in its values and its parts, and by itself.
fn broken_of(
    alloc: Global,
    place: Place,
    own: ItemList<Broken>,
    values: ItemList<Broken>,
    parts: ItemList<Broken>,
    rule: Option<u8>,
) -> Result<ItemList<Broken>, OutOfMemory>
    ensures { IfOk result (λ bs. bs ≡
        innermost place (own ++ (values ++ (parts ++ broken_at place rule)))) }
{
    let mut all = own;
    all.append(values)?;
    all.append(parts)?;
    let all = with_rule(all, place, rule)?;
    innermost(alloc, place, all)
}

/// What else is told of a statement, of its variables, its values and its parts.
fn others_of(
    alloc: Global,
    place: Place,
    rule: Option<u8>,
    own: Gathered,
    values: (ItemList<Broken>, ItemList<u32>),
    parts: Gathered,
) -> Result<Gathered, OutOfMemory>
    ensures statics { IfOk result (λ g. g.statics ≡ own.statics ++ parts.statics) }
    ensures broken { IfOk result (λ g. g.broken ≡
        innermost place (own.broken ++ (values.0 ++ (parts.broken ++ broken_at place rule)))) }
    ensures used { IfOk result (λ g. g.used ≡ own.used ++ (values.1 ++ parts.used)) }
{
    let Gathered {
        mut statics,
        broken,
        mut used,
    } = own;
    let (below, calls) = values;
    statics.append(parts.statics)?;
    used.append(calls)?;
    used.append(parts.used)?;
    let broken = broken_of(alloc, place, broken, below, parts.broken, rule)?;
    Ok(Gathered {
        statics,
        broken,
        used,
    })
}

/// What a statement is told, of its typed statements and what else is told of it.
fn told_with(
    typed: ItemList<Statement>,
    kept: ItemList<VarType>,
    declared: ItemList<Known>,
    labels: ItemList<Label>,
    others: Gathered,
) -> Told
    ensures { result ≡ record {
      typed = typed;
      kept = kept;
      declared = declared;
      statics = others.statics;
      labels = labels;
      broken = others.broken;
      used = others.used;
    } }
{
    Told {
        typed,
        kept,
        declared,
        statics: others.statics,
        labels,
        broken: others.broken,
        used: others.used,
    }
}

/// The typed statements and the variables of a declaration, what values tell, and what else is told.
fn rest_told(
    alloc: Global,
    place: Place,
    rule: Option<u8>,
    variables: Told,
    founds: Founds,
    parts: Gathered,
) -> Result<
    (
        ItemList<Statement>,
        ItemList<Known>,
        ItemList<Option<Info>>,
        Gathered,
    ),
    OutOfMemory,
>
    ensures typed { IfOk result (λ r. r.0 ≡ variables.typed) }
    ensures declared { IfOk result (λ r. r.1 ≡ variables.declared) }
    ensures infos { IfOk result (λ r. r.2 ≡ founds.infos) }
    ensures statics { IfOk result (λ r. r.3.statics ≡ variables.statics ++ parts.statics) }
    ensures broken { IfOk result (λ r. r.3.broken ≡ innermost place (variables.broken
        ++ (founds.broken ++ (parts.broken ++ broken_at place rule)))) }
    ensures used { IfOk result (λ r. r.3.used ≡ variables.used ++ (founds.used ++ parts.used)) }
{
    let Told {
        typed,
        declared,
        statics,
        broken,
        used,
        ..
    } = variables;
    let own = Gathered {
        statics,
        broken,
        used,
    };
    let Founds {
        infos,
        broken,
        used,
    } = founds;
    let others = others_of(alloc, place, rule, own, (broken, used), parts)?;
    Ok((typed, declared, infos, others))
}

/// The same of the parts together, of the rule that it breaks and of the label that it is.
fn told_as(
    alloc: Global,
    what: StatementKind,
    place: Place,
    line: u32,
    of: Option<Base>,
    rule: Option<u8>,
    variables: Told,
    founds: Founds,
    parts: Parted,
    labels: ItemList<Label>,
    kept: ItemList<VarType>,
) -> Result<Told, OutOfMemory>
    ensures { IfOk result (λ t. t ≡ record {
      typed = statements what line of founds.infos variables.typed parts.inner;
      kept = kept;
      declared = variables.declared;
      statics = variables.statics ++ parts.others.statics;
      labels = labels;
      broken = innermost place (variables.broken ++ (founds.broken ++ (parts.others.broken
          ++ broken_at place rule)));
      used = variables.used ++ (founds.used ++ parts.others.used);
    }) }
{
    let Parted { inner, others } = parts;
    let (own, declared, infos, others) = rest_told(alloc, place, rule, variables, founds, others)?;
    let typed = statements(alloc, what, line, of, infos, own, inner)?;
    Ok(told_with(typed, kept, declared, labels, others))
}

/// The lowest rule that it breaks.
fn rule_of<P: ProgramFacts>(
    at: &Here<'_, P>,
    what: StatementKind,
    founds: &Founds,
    parts: &Parted,
) -> Option<u8>
    ensures { result ≡ lowest (context_at P.program at.now) what founds.now.infos parts.now.inner.labels }
{
    lowest(
        at,
        what,
        founds.infos.as_slice(),
        parts.inner.labels.as_slice(),
    )
}

/// The same, with the lowest rule that it breaks.
fn told_ruled<P: ProgramFacts>(
    alloc: Global,
    at: &Here<'_, P>,
    what: StatementKind,
    place: Place,
    line: u32,
    variables: Told,
    founds: Founds,
    parts: Parted,
    labels: ItemList<Label>,
    kept: ItemList<VarType>,
) -> Result<Told, OutOfMemory>
    ensures { IfOk result (λ t. t ≡ record {
      typed = statements what line at.now.result founds.infos variables.typed parts.inner;
      kept = kept;
      declared = variables.declared;
      statics = variables.statics ++ parts.others.statics;
      labels = labels;
      broken = innermost place (variables.broken ++ (founds.broken ++ (parts.others.broken
          ++ broken_at place (lowest (context_at P.program at.now) what founds.infos parts.inner.labels))));
      used = variables.used ++ (founds.used ++ parts.others.used);
    }) }
{
    let rule = rule_of(at, what, &founds, &parts);
    told_as(
        alloc, what, place, line, at.result, rule, variables, founds, parts, labels, kept,
    )
}

/// What a statement is told where it stands.
fn told_in<P: ProgramFacts>(
    alloc: Global,
    at: &Here<'_, P>,
    place: Place,
    what: StatementKind,
    values: &[Value],
    variables: Told,
    founds: Founds,
    parts: ItemList<Told>,
    kept: ItemList<VarType>,
) -> Result<Told, OutOfMemory>
    ensures { IfOk result (λ t. t ≡ told_by (context_at P.program at.now) place what values.now variables
        founds.infos founds.broken founds.used parts kept) }
{
    let line = at.program.line(place);
    let labels = label_of(alloc, at.program, at.locals, what, values)?;
    let parted = parts_of(alloc, what, line, at.next, parts)?;
    told_ruled(
        alloc, at, what, place, line, variables, founds, parted, labels, kept,
    )
}

/// What a statement is told, of its declared variables, its values, its parts and the locals that all these take.
pub fn told_of<P: ProgramFacts>(
    alloc: Global,
    here: &Here<'_, P>,
    locals: &[Known],
    place: Place,
    what: StatementKind,
    values: &[Value],
    variables: Told,
    founds: Founds,
    parts: ItemList<Told>,
    kept: ItemList<VarType>,
) -> Result<Told, OutOfMemory>
    ensures { IfOk result (λ t. t ≡ told_by (in_force (context_at P.program here.now) locals.now) place what
        values.now variables founds.infos founds.broken founds.used parts kept) }
{
    let at = Here { locals, ..*here };
    told_in(
        alloc, &at, place, what, values, variables, founds, parts, kept,
    )
}
