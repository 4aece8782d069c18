//! The walk over statements.
ghost use Rattle.std.specs.Prelude.{◌≡◌, ◌+◌, [], ◌∷◌, ◌++◌, length, true, false, take, drop, flat_map, IfOk};
ghost use Rattle.mql_scope.specs.Places.{context_at};
ghost use Rattle.mql_expressions.specs.Values.{kept_by, found_all, founds_of};
ghost use Rattle.mql_statements.specs.Told.{nothing_told};
ghost use Rattle.mql_statement_walk.specs.Walk.{kept_in, in_loop, inner_context, is_for, told, told_of, told_all};
ghost use Rattle.mql_statements.specs.Told.{in_force};
ghost use Rattle.mql_typed_statements.specs.Statements.{shares, place_of, told_by};
ghost use Rattle.mql_statement_walk.specs.Lists.{told_part, told_list, declared_in, parts_of, for_parts_of, head_of, after};

use fx8::{ItemList, OutOfMemory};
use mql_expressions::{Founds, found_all, kept_by};
use mql_meaning::VarType;
use mql_scope::{Here, Known, ProgramFacts};
use mql_starts::declares_all;
use mql_statements::{Told, joined, nothing_told};
use mql_syntax::{Place, Statement, StatementKind, Value, Variable};
use mql_told_statements::{own_scope, shares, told_of};
use mql_typed::Info;
use std::alloc::Global;

/// What a statement has before its parts.
#[derive(Drop)]
pub(crate) struct Head {
    /// Its variables, or what a `for` begins with.
    pub variables: Told,
    /// What its values tell.
    pub values: Founds,
    /// The locals that these take.
    pub kept: ItemList<VarType>,
}

fn copy_type(alloc: Global, t: &VarType) -> Result<VarType, OutOfMemory>
    ensures { IfOk result (λ copy. copy ≡ t.now) }
{
    let dimensions = ItemList::from_slice(alloc, t.dimensions.as_slice())?;
    Ok(VarType {
        base: t.base,
        dimensions,
    })
}

/// Types, and copies of others behind them.
fn with_types(
    alloc: Global,
    mut types: ItemList<VarType>,
    more: &[VarType],
) -> Result<ItemList<VarType>, OutOfMemory>
    ensures { IfOk result (λ all. all ≡ types ++ more.now) }
{
    for t in more {
        let copy = copy_type(alloc, t)?;
        types.push(copy)?;
    }
    Ok(types)
}

/// Types, and the locals that values take behind them.
fn with_value_types(
    alloc: Global,
    types: ItemList<VarType>,
    infos: &[Option<Info>],
) -> Result<ItemList<VarType>, OutOfMemory>
    ensures { IfOk result (λ all. all ≡ types ++ flat_map kept_by infos.now) }
{
    let mut all = types;
    for info in infos {
        all = with_types(alloc, all, kept_by(info))?;
    }
    Ok(all)
}

/// Types, and the locals that parts take behind them.
#[tactic(auto, using(crate::proofs::OfParts::kept_more))]
fn with_part_types(
    alloc: Global,
    types: ItemList<VarType>,
    parts: &[Told],
) -> Result<ItemList<VarType>, OutOfMemory>
    ensures { IfOk result (λ all. all ≡ types ++ kept_in parts.now) }
{
    let mut all = types;
    for t in parts {
        all = with_types(alloc, all, t.kept.as_slice())?;
    }
    Ok(all)
}

/// Whether the statement is a `for`.
fn is_for(what: StatementKind) -> bool
    ensures { result ≡ is_for what }
{
    match what {
        StatementKind::For { .. } => true,
        _ => false,
    }
}

fn place_of(s: &Statement) -> Place
    ensures { result ≡ place_of s.now }
{
    match s {
        Statement::Node { place, .. } => *place,
    }
}

/// A place in a loop.
fn in_loop<'a, P: ProgramFacts>(here: Here<'a, P>) -> Here<'a, P>
    ensures { context_at P.program result ≡ in_loop (context_at P.program here.entry) }
{
    Here {
        breaks: true,
        continues: true,
        ..here
    }
}

/// Where the parts of a statement stand.
fn inside<'a, P: ProgramFacts>(what: StatementKind, here: Here<'a, P>) -> Here<'a, P>
    ensures { context_at P.program result ≡ inner_context what (context_at P.program here.entry) }
{
    match what {
        StatementKind::While | StatementKind::Do | StatementKind::For { .. } => in_loop(here),
        StatementKind::Switch => Here {
            breaks: true,
            ..here
        },
        _ => here,
    }
}

/// The place behind something that takes locals and static variables.
fn behind<'a, P: ProgramFacts>(
    here: &Here<'a, P>,
    kept: &[VarType],
    statics: usize,
) -> Result<Here<'a, P>, OutOfMemory>
    ensures { IfOk result (λ h. context_at P.program h ≡
        after (length kept.now) statics (context_at P.program here.now)) }
{
    here.behind(kept, here.locals, statics)
}

/// What values tell where these variables are in force.
fn values_told<P: ProgramFacts>(
    alloc: Global,
    here: &Here<'_, P>,
    locals: &[Known],
    values: &[Value],
) -> Result<Founds, OutOfMemory>
    ensures { IfOk result (λ r. r ≡
        founds_of (found_all (in_force (context_at P.program here.now) locals.now) values.now)) }
{
    let at = Here { locals, ..*here };
    found_all(alloc, &at, values)
}

/// What a statement has before its parts, where these variables are in force behind what it declares.
#[tactic(auto, using(crate::proofs::OfParts::kept_of))]
fn head_told<P: ProgramFacts>(
    alloc: Global,
    here: &Here<'_, P>,
    variables: Told,
    locals: &[Known],
    values: &[Value],
) -> Result<Head, OutOfMemory>
    ensures { IfOk result (λ h. h ≡ head_of variables (found_all (in_force (after (length variables.kept)
        (length variables.statics) (context_at P.program here.now)) locals.now) values.now)) }
{
    let at = behind(
        here,
        variables.kept.as_slice(),
        variables.statics.as_slice().len(),
    )?;
    let founds = values_told(alloc, &at, locals, values)?;
    let own = with_types(alloc, ItemList::new(alloc), variables.kept.as_slice())?;
    let kept = with_value_types(alloc, own, founds.infos.as_slice())?;
    Ok(Head {
        variables,
        values: founds,
        kept,
    })
}

/// The place behind what a statement has before its parts.
fn behind_head<'a, P: ProgramFacts>(
    here: &Here<'a, P>,
    head: &Head,
) -> Result<Here<'a, P>, OutOfMemory>
    ensures { IfOk result (λ h. context_at P.program h ≡
        after (length head.now.kept) (length head.now.variables.statics) (context_at P.program here.now)) }
{
    behind(
        here,
        head.kept.as_slice(),
        head.variables.statics.as_slice().len(),
    )
}

/// The first of the variables.
fn first(known: &[Known], count: usize) -> &[Known]
    ensures { result.now ≡ take count known.now }
{
    if count < known.len() {
        &known[..count]
    } else {
        known
    }
}

/// What a statement is typed of what it has before its parts and of these.
fn typed_of<P: ProgramFacts>(
    alloc: Global,
    here: &Here<'_, P>,
    locals: &[Known],
    place: Place,
    what: StatementKind,
    values: &[Value],
    head: Head,
    parts: ItemList<Told>,
) -> Result<Told, OutOfMemory>
    ensures { IfOk result (λ t. t ≡ told_by (in_force (context_at P.program here.now) locals.now) place what
        values.now head.variables head.values.infos head.values.broken head.values.used parts
        (head.kept ++ kept_in parts)) }
{
    let Head {
        variables,
        values: founds,
        kept,
    } = head;
    let all = with_part_types(alloc, kept, parts.as_slice())?;
    told_of(
        alloc, here, locals, place, what, values, variables, founds, parts, all,
    )
}

fn with_first(
    alloc: Global,
    first: Told,
    rest: ItemList<Told>,
) -> Result<ItemList<Told>, OutOfMemory>
    ensures { IfOk result (λ all. all ≡ first ∷ rest) }
{
    let mut all = ItemList::new(alloc);
    all.push(first)?;
    all.append(rest)?;
    Ok(all)
}

/// What a `for` is typed: what it begins with is its first part.
fn for_of<P: ProgramFacts>(
    alloc: Global,
    here: &Here<'_, P>,
    locals: &[Known],
    place: Place,
    what: StatementKind,
    values: &[Value],
    head: Head,
    parts: ItemList<Told>,
) -> Result<Told, OutOfMemory>
    ensures { IfOk result (λ t. t ≡ told_by (in_force (context_at P.program here.now) locals.now) place what
        values.now nothing_told head.values.infos head.values.broken head.values.used (head.variables ∷ parts)
        (head.kept ++ kept_in parts)) }
{
    let Head {
        variables: begin,
        values: founds,
        kept,
    } = head;
    let all = with_part_types(alloc, kept, parts.as_slice())?;
    let inner = with_first(alloc, begin, parts)?;
    told_of(
        alloc,
        here,
        locals,
        place,
        what,
        values,
        nothing_told(alloc),
        founds,
        inner,
        all,
    )
}

/// What a `for` is typed that has no parts.
fn bare_for<P: ProgramFacts>(
    alloc: Global,
    here: &Here<'_, P>,
    locals: &[Known],
    place: Place,
    what: StatementKind,
    values: &[Value],
) -> Result<Told, OutOfMemory>
    ensures { IfOk result (λ t. t ≡ told_by (in_force (context_at P.program here.now) locals.now) place what
        values.now nothing_told [] [] [] [] []) }
{
    let founds = Founds {
        infos: ItemList::new(alloc),
        broken: ItemList::new(alloc),
        used: ItemList::new(alloc),
    };
    let own = nothing_told(alloc);
    told_of(
        alloc,
        here,
        locals,
        place,
        what,
        values,
        own,
        founds,
        ItemList::new(alloc),
        ItemList::new(alloc),
    )
}

/// What a statement is typed, where these variables are in force, and those in force behind it.
#[cycle(told)]
fn statement_told<P: ProgramFacts>(
    alloc: Global,
    here: &Here<'_, P>,
    locals: ItemList<Known>,
    s: &Statement,
) -> Result<(Told, ItemList<Known>), OutOfMemory>
    ensures told { IfOk result (λ r. r.0 ≡ told (in_force (context_at P.program here.now) locals) s.now) }
    ensures locals { IfOk result (λ r. r.1 ≡ locals ++ r.0.declared) }
{
    match s {
        Statement::Node {
            place,
            what,
            locals: own,
            values,
            parts,
        } => {
            let asked = values.as_slice();
            let inner = parts.as_slice();
            if is_for(*what) {
                for_told(alloc, here, locals, inner, *place, *what, asked)
            } else {
                let declared = own.as_slice();
                node_told(alloc, here, locals, inner, *place, *what, declared, asked)
            }
        }
    }
}

/// What a statement is typed that is no `for`, and the variables in force behind it.
#[cycle(told)]
fn node_told<P: ProgramFacts>(
    alloc: Global,
    here: &Here<'_, P>,
    locals: ItemList<Known>,
    parts: &[Statement],
    place: Place,
    what: StatementKind,
    own: &[Variable],
    values: &[Value],
) -> Result<(Told, ItemList<Known>), OutOfMemory>
    ensures told { IfOk result (λ r. r.0 ≡ told_of (in_force (context_at P.program here.now) locals) place what
        values.now (parts_of (in_force (context_at P.program here.now) locals) what own.now values.now parts.now)) }
    ensures locals { IfOk result (λ r. r.1 ≡ locals ++ r.0.declared) }
{
    let count = locals.as_slice().len();
    let (variables, declared) = declares_all(alloc, here, locals, own)?;
    let head = head_told(alloc, here, variables, declared.as_slice(), values)?;
    let behind = behind_head(here, &head)?;
    let at = inside(what, behind);
    let (told_parts, all) = parts_told(alloc, &at, declared, shares(what), parts)?;
    let before = first(all.as_slice(), count);
    let t = typed_of(alloc, here, before, place, what, values, head, told_parts)?;
    Ok((t, all))
}

/// What a `for` is typed, and the variables in force behind it.
#[cycle(told)]
fn for_told<P: ProgramFacts>(
    alloc: Global,
    here: &Here<'_, P>,
    locals: ItemList<Known>,
    parts: &[Statement],
    place: Place,
    what: StatementKind,
    values: &[Value],
) -> Result<(Told, ItemList<Known>), OutOfMemory>
    ensures told { IfOk result (λ r. r.0 ≡ told_of (in_force (context_at P.program here.now) locals) place what
        values.now (for_parts_of (in_force (context_at P.program here.now) locals) values.now parts.now)) }
    ensures locals { IfOk result (λ r. r.1 ≡ locals ++ r.0.declared) }
{
    match parts {
        [] => {
            let t = bare_for(alloc, here, locals.as_slice(), place, what, values)?;
            Ok((t, locals))
        }
        [s, ..] => {
            let count = locals.as_slice().len();
            let (begin, declared) = statement_told(alloc, here, locals, s)?;
            let head = head_told(alloc, here, begin, declared.as_slice(), values)?;
            let behind = behind_head(here, &head)?;
            let at = in_loop(behind);
            let (told_parts, mut all) = others_told(alloc, &at, declared, parts)?;
            all.truncate(count as u64);
            let t = for_of(
                alloc,
                here,
                all.as_slice(),
                place,
                what,
                values,
                head,
                told_parts,
            )?;
            Ok((t, all))
        }
    }
}

/// What the parts behind the first are typed, each a scope of its own; the variables in force stay.
#[cycle(told)]
fn others_told<P: ProgramFacts>(
    alloc: Global,
    here: &Here<'_, P>,
    locals: ItemList<Known>,
    parts: &[Statement],
) -> Result<(ItemList<Told>, ItemList<Known>), OutOfMemory>
    ensures told { IfOk result (λ r. r.0 ≡
        told_list (in_force (context_at P.program here.now) locals) false (drop 1 parts.now)) }
    ensures locals { IfOk result (λ r. r.1 ≡ locals) }
{
    match parts {
        [] => parts_told(alloc, here, locals, false, parts),
        [_, others @ ..] => parts_told(alloc, here, locals, false, others),
    }
}

/// What a part is typed, and the variables in force behind it.
#[cycle(told)]
fn part_told<P: ProgramFacts>(
    alloc: Global,
    here: &Here<'_, P>,
    locals: ItemList<Known>,
    shared: bool,
    s: &Statement,
) -> Result<(Told, ItemList<Known>), OutOfMemory>
    ensures told { IfOk result (λ r. r.0 ≡
        told_part (in_force (context_at P.program here.now) locals) shared s.now) }
    ensures locals { IfOk result (λ r. r.1 ≡ locals ++ r.0.declared) }
{
    if shared {
        return statement_told(alloc, here, locals, s);
    }
    let count = locals.len();
    let (t, mut all) = statement_told(alloc, here, locals, s)?;
    all.truncate(count);
    let part = own_scope(alloc, here.program.line(place_of(s)), here.next, t)?;
    Ok((part, all))
}

/// What parts are typed, one after another, and the variables in force behind them.
#[cycle(told)]
fn each_told<P: ProgramFacts>(
    alloc: Global,
    here: &Here<'_, P>,
    locals: ItemList<Known>,
    shared: bool,
    parts: &[Statement],
) -> Result<(ItemList<Told>, ItemList<Known>), OutOfMemory>
    ensures told { IfOk result (λ r. r.0 ≡
        told_list (in_force (context_at P.program here.now) locals) shared parts.now) }
    ensures locals { IfOk result (λ r. r.1 ≡ locals ++ declared_in r.0) }
{
    let mut all = ItemList::new(alloc);
    let mut known = locals;
    let mut at = *here;
    for s in parts {
        let (t, back) = part_told(alloc, &at, known, shared, s)?;
        at = behind(&at, t.kept.as_slice(), t.statics.as_slice().len())?;
        all.push(t)?;
        known = back;
    }
    Ok((all, known))
}

/// What parts are typed, one after another; the variables in force stay.
#[cycle(told)]
fn parts_told<P: ProgramFacts>(
    alloc: Global,
    here: &Here<'_, P>,
    locals: ItemList<Known>,
    shared: bool,
    parts: &[Statement],
) -> Result<(ItemList<Told>, ItemList<Known>), OutOfMemory>
    ensures told { IfOk result (λ r. r.0 ≡
        told_list (in_force (context_at P.program here.now) locals) shared parts.now) }
    ensures locals { IfOk result (λ r. r.1 ≡ locals) }
{
    let count = locals.len();
    let (all, mut known) = each_told(alloc, here, locals, shared, parts)?;
    known.truncate(count);
    Ok((all, known))
}

/// What statements are typed, one after another in a scope, where these variables are in force.
#[tactic(auto, using(crate::proofs::OfParts::all_joined))]
pub fn told_all<P: ProgramFacts>(
    alloc: Global,
    here: &Here<'_, P>,
    locals: ItemList<Known>,
    statements: &[Statement],
) -> Result<Told, OutOfMemory>
    ensures { IfOk result (λ t. t ≡
        told_all (in_force (context_at P.program here.now) locals) statements.now) }
{
    let (parts, _) = parts_told(alloc, here, locals, true, statements)?;
    joined(alloc, parts)
}
