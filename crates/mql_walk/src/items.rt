//! The walk over the items of a program.
ghost use Rattle.std.specs.Prelude.{◌≡◌, ℕ, true, List, [], ◌∷◌, ◌++◌, map, IfOk};
ghost use Rattle.std.specs.List.{flat_map};
ghost use Rattle.mql_names.specs.Things.{variable_name, param_variable};
ghost use Rattle.mql_walk.specs.Things.{told_by, variable_things, variables_things, result_things, function_things, inner_things, member_things, enumerator_things, item_things, things_of};
ghost use Rattle.mql_walk.specs.Things as thing;

use crate::judge::Judge;
use crate::statements::parts_told;
use crate::values::{type_told, value_told, variable_told, with_local};
use fx8::{ItemList, OutOfMemory, Text};
use mql_names::{Broken, body_parts, sooner};
use mql_syntax::{Class, Enumerator, Function, Item, Member, Param, Syntax, TypeUse, Variable};
use std::alloc::Global;

fn result_told<J: Judge>(judge: &J, of: &Option<TypeUse>) -> Option<Broken>
    ensures { result ≡ told_by (J.breaks judge.now) (result_things of.now) }
{
    match of {
        None => None,
        Some(one) => type_told(judge, one),
    }
}

/// What is told of parameters, and their names.
fn params_told<J: Judge>(
    alloc: Global,
    judge: &J,
    params: &[Param],
) -> Result<(Option<Broken>, ItemList<Text>), OutOfMemory>
    ensures { IfOk result (λ r. (r.0 ≡ told_by (J.breaks judge.now)
        (variables_things [] (map param_variable params.now)))
        × (r.1 ≡ map variable_name (map param_variable params.now))) }
{
    let mut told: Option<Broken> = None;
    let mut locals: ItemList<Text> = ItemList::new(alloc);
    for param in params {
        told = sooner(
            told,
            variable_told(judge, locals.as_slice(), &param.variable)?,
        );
        locals = with_local(alloc, locals, &param.variable)?;
    }
    Ok((told, locals))
}

fn function_told<J: Judge>(
    alloc: Global,
    judge: &J,
    f: &Function,
) -> Result<Option<Broken>, OutOfMemory>
    ensures { IfOk result (λ b. b ≡ told_by (J.breaks judge.now) (function_things f.now)) }
{
    let own = judge.on_function(f);
    let of = result_told(judge, &f.result);
    let (params, locals) = params_told(alloc, judge, f.params.as_slice())?;
    let (body, _locals) = parts_told(alloc, judge, true, locals, body_parts(&f.body))?;
    Ok(sooner(own, sooner(of, sooner(params, body))))
}

/// What is told of a variable of no block.
fn field_told<J: Judge>(judge: &J, v: &Variable) -> Result<Option<Broken>, OutOfMemory>
    ensures { IfOk result (λ b. b ≡ told_by (J.breaks judge.now) (variable_things [] v.now)) }
{
    variable_told(judge, &[], v)
}

fn inner_told<J: Judge>(alloc: Global, judge: &J, m: &Member) -> Result<Option<Broken>, OutOfMemory>
    ensures { IfOk result (λ b. b ≡ told_by (J.breaks judge.now) (inner_things m.now)) }
{
    match m {
        Member::Variable(_, v) => field_told(judge, v),
        Member::Function(_, f) => function_told(alloc, judge, f),
    }
}

fn member_told<J: Judge>(
    alloc: Global,
    judge: &J,
    m: &Member,
) -> Result<Option<Broken>, OutOfMemory>
    ensures { IfOk result (λ b. b ≡ told_by (J.breaks judge.now) (member_things m.now)) }
{
    let own = judge.on_member(m);
    let inner = inner_told(alloc, judge, m)?;
    Ok(sooner(own, inner))
}

fn members_told<J: Judge>(
    alloc: Global,
    judge: &J,
    members: &[Member],
) -> Result<Option<Broken>, OutOfMemory>
    ensures { IfOk result (λ b. b ≡ told_by (J.breaks judge.now) (flat_map member_things members.now)) }
{
    let mut told: Option<Broken> = None;
    for m in members {
        told = sooner(told, member_told(alloc, judge, m)?);
    }
    Ok(told)
}

fn class_told<J: Judge>(alloc: Global, judge: &J, c: &Class) -> Result<Option<Broken>, OutOfMemory>
    ensures { IfOk result (λ b. b ≡ told_by (J.breaks judge.now)
        (thing.structure c.now ∷ flat_map member_things c.now.members)) }
{
    let own = judge.on_structure(c);
    let members = members_told(alloc, judge, c.members.as_slice())?;
    Ok(sooner(own, members))
}

fn enumerator_told<J: Judge>(judge: &J, e: &Enumerator) -> Option<Broken>
    ensures { result ≡ told_by (J.breaks judge.now) (enumerator_things e.now) }
{
    match &e.value {
        None => None,
        Some(v) => value_told(judge, &[], v),
    }
}

fn enumerators_told<J: Judge>(judge: &J, enumerators: &[Enumerator]) -> Option<Broken>
    ensures { result ≡ told_by (J.breaks judge.now) (flat_map enumerator_things enumerators.now) }
{
    let mut told: Option<Broken> = None;
    for e in enumerators {
        told = sooner(told, enumerator_told(judge, e));
    }
    told
}

fn item_told<J: Judge>(alloc: Global, judge: &J, item: &Item) -> Result<Option<Broken>, OutOfMemory>
    ensures { IfOk result (λ b. b ≡ told_by (J.breaks judge.now) (item_things item.now)) }
{
    match item {
        Item::Group(_) => Ok(None),
        Item::Variable(v) => field_told(judge, v),
        Item::Function(f) => function_told(alloc, judge, f),
        Item::Class(c) => class_told(alloc, judge, c),
        Item::Enumeration(e) => Ok(enumerators_told(judge, e.values.as_slice())),
    }
}

/// What is told of items, one after another.
fn items_told<J: Judge>(
    alloc: Global,
    judge: &J,
    items: &[Item],
) -> Result<Option<Broken>, OutOfMemory>
    ensures { IfOk result (λ b. b ≡ told_by (J.breaks judge.now) (flat_map item_things items.now)) }
{
    let mut told: Option<Broken> = None;
    for item in items {
        told = sooner(told, item_told(alloc, judge, item)?);
    }
    Ok(told)
}

/// What is told of a program by rules that are asked of all that is written in it.
pub fn judged<J: Judge>(
    alloc: Global,
    judge: &J,
    syntax: &Syntax,
) -> Result<Option<Broken>, OutOfMemory>
    ensures { IfOk result (λ b. b ≡ told_by (J.breaks judge.now) (things_of syntax.now)) }
{
    items_told(alloc, judge, syntax.items.as_slice())
}
