//! The walk over the items of a program.
ghost use Rattle.std.specs.Prelude.{◌≡◌, ℕ, List, [], ◌∷◌, ◌++◌, map, IfOk};
ghost use Rattle.std.specs.List.{flat_map};
ghost use Rattle.mql_names.specs.Maps.{meaning};
ghost use Rattle.mql_names.specs.Types.{Names};
ghost use Rattle.mql_names.specs.Things.{variable_named, variables_things, param_variable, result_things, own_names, parts_of, body_parts, function_things, function_named, member_named, member_things, class_things, enumerator_things, item_things};
ghost use Rattle.mql_names.specs.Things as thing;
ghost use Rattle.mql_names.specs.Rules.{told_of};

use crate::fault::{Broken, sooner};
use crate::rules::{function_told, type_told};
use crate::scope::Named;
use crate::types::{Meanings, form_of};
use crate::walk::{
    parts_told, scope_told, value_told, variable_named, whole_variable_told, with_statements,
};
use fx8::{ItemList, OutOfMemory, Text};
use mql_syntax::{Body, Class, Enumerator, Function, Item, Member, Param, Statement, TypeUse};
use std::alloc::Global;

fn result_told(names: &Meanings<'_>, of: &Option<TypeUse>) -> Option<Broken>
    ensures { result ≡ told_of (meaning names.now) (result_things of.now) }
{
    match of {
        None => None,
        Some(one) => type_told(names, one),
    }
}

fn params_told(names: &Meanings<'_>, params: &[Param]) -> Option<Broken>
    ensures { (locals : List (List ℕ)) →
        result ≡ told_of (meaning names.now) (variables_things locals (map param_variable params.now)) }
{
    let mut told: Option<Broken> = None;
    for param in params {
        told = sooner(told, whole_variable_told(names, &param.variable));
    }
    told
}

fn with_params(
    alloc: Global,
    mut named: ItemList<Named>,
    params: &[Param],
) -> Result<ItemList<Named>, OutOfMemory>
    ensures { IfOk result (λ new. new ≡ named ++ map variable_named (map param_variable params.now)) }
{
    for param in params {
        named.push(variable_named(alloc, &param.variable)?)?;
    }
    Ok(named)
}

fn statement_parts(s: &Statement) -> &[Statement]
    ensures { result.now ≡ parts_of s.now }
{
    match s {
        Statement::Node { parts, .. } => parts.as_slice(),
    }
}

/// The statements of a function's outermost block.
pub fn body_parts(body: &Body) -> &[Statement]
    ensures { result.now ≡ body_parts body.now }
{
    match body {
        Body::Block(s) => statement_parts(s),
        Body::Declared | Body::Pure => &[],
    }
}

/// What is told of the scope of a function's parameters and of its outermost block.
fn function_scope_told(alloc: Global, f: &Function) -> Result<Option<Broken>, OutOfMemory>
    ensures { IfOk result (λ b. (names : Names) → b ≡ told_of names (thing.scope
        (map variable_named (map param_variable f.now.params)
        ++ flat_map own_names (body_parts f.now.body)) ∷ [])) }
{
    let named = with_params(alloc, ItemList::new(alloc), f.params.as_slice())?;
    let named = with_statements(alloc, named, body_parts(&f.body))?;
    scope_told(alloc, named.as_slice())
}

/// What is told of a function and of all that stands in it.
fn whole_function_told(
    alloc: Global,
    names: &Meanings<'_>,
    f: &Function,
) -> Result<Option<Broken>, OutOfMemory>
    ensures { IfOk result (λ b. b ≡ told_of (meaning names.now) (function_things f.now)) }
{
    let own = function_told(names, f);
    let of = result_told(names, &f.result);
    let params = params_told(names, f.params.as_slice());
    let scope = function_scope_told(alloc, f)?;
    let body = parts_told(alloc, names, body_parts(&f.body))?;
    Ok(sooner(own, sooner(of, sooner(params, sooner(scope, body)))))
}

pub(crate) fn function_named(
    alloc: Global,
    names: &Meanings<'_>,
    f: &Function,
) -> Result<Named, OutOfMemory>
    ensures { IfOk result (λ named. named ≡ function_named (meaning names.now) f.now) }
{
    let name = Text::from_slice(alloc, f.name.as_slice())?;
    let form = form_of(alloc, names, f)?;
    Ok(Named {
        place: f.place,
        name,
        form: Some(form),
    })
}

fn member_named(alloc: Global, names: &Meanings<'_>, member: &Member) -> Result<Named, OutOfMemory>
    ensures { IfOk result (λ named. named ≡ member_named (meaning names.now) member.now) }
{
    match member {
        Member::Variable(_, v) => variable_named(alloc, v),
        Member::Function(_, f) => function_named(alloc, names, f),
    }
}

fn members_named(
    alloc: Global,
    names: &Meanings<'_>,
    members: &[Member],
) -> Result<ItemList<Named>, OutOfMemory>
    ensures { IfOk result (λ new. new ≡ map (member_named (meaning names.now)) members.now) }
{
    let mut named = ItemList::new(alloc);
    for member in members {
        named.push(member_named(alloc, names, member)?)?;
    }
    Ok(named)
}

fn member_told(
    alloc: Global,
    names: &Meanings<'_>,
    member: &Member,
) -> Result<Option<Broken>, OutOfMemory>
    ensures { IfOk result (λ b. b ≡ told_of (meaning names.now) (member_things member.now)) }
{
    match member {
        Member::Variable(_, v) => Ok(whole_variable_told(names, v)),
        Member::Function(_, f) => whole_function_told(alloc, names, f),
    }
}

fn members_told(
    alloc: Global,
    names: &Meanings<'_>,
    members: &[Member],
) -> Result<Option<Broken>, OutOfMemory>
    ensures { IfOk result (λ b. b ≡ told_of (meaning names.now) (flat_map member_things members.now)) }
{
    let mut told: Option<Broken> = None;
    for member in members {
        told = sooner(told, member_told(alloc, names, member)?);
    }
    Ok(told)
}

fn member_scope_told(
    alloc: Global,
    names: &Meanings<'_>,
    members: &[Member],
) -> Result<Option<Broken>, OutOfMemory>
    ensures { IfOk result (λ b. b ≡ told_of (meaning names.now)
        (thing.scope (map (member_named (meaning names.now)) members.now) ∷ [])) }
{
    let named = members_named(alloc, names, members)?;
    scope_told(alloc, named.as_slice())
}

/// What is told of a structure and of its members.
fn class_told(alloc: Global, names: &Meanings<'_>, c: &Class) -> Result<Option<Broken>, OutOfMemory>
    ensures { IfOk result (λ b. b ≡ told_of (meaning names.now) (class_things (meaning names.now) c.now)) }
{
    let scope = member_scope_told(alloc, names, c.members.as_slice())?;
    let members = members_told(alloc, names, c.members.as_slice())?;
    Ok(sooner(scope, members))
}

fn enumerator_told(names: &Meanings<'_>, enumerator: &Enumerator) -> Option<Broken>
    ensures { result ≡ told_of (meaning names.now) (enumerator_things enumerator.now) }
{
    match &enumerator.value {
        None => None,
        Some(v) => value_told(names, v),
    }
}

fn enumerators_told(names: &Meanings<'_>, enumerators: &[Enumerator]) -> Option<Broken>
    ensures { result ≡ told_of (meaning names.now) (flat_map enumerator_things enumerators.now) }
{
    let mut told: Option<Broken> = None;
    for enumerator in enumerators {
        told = sooner(told, enumerator_told(names, enumerator));
    }
    told
}

/// What is told of an item and of all that stands in it.
fn item_told(
    alloc: Global,
    names: &Meanings<'_>,
    item: &Item,
) -> Result<Option<Broken>, OutOfMemory>
    ensures { IfOk result (λ b. b ≡ told_of (meaning names.now) (item_things (meaning names.now) item.now)) }
{
    match item {
        Item::Group(_) => Ok(None),
        Item::Variable(v) => Ok(whole_variable_told(names, v)),
        Item::Function(f) => whole_function_told(alloc, names, f),
        Item::Class(c) => class_told(alloc, names, c),
        Item::Enumeration(e) => Ok(enumerators_told(names, e.values.as_slice())),
    }
}

/// What is told of items, one after another.
pub(crate) fn items_told(
    alloc: Global,
    names: &Meanings<'_>,
    items: &[Item],
) -> Result<Option<Broken>, OutOfMemory>
    ensures { IfOk result (λ b. b ≡ told_of (meaning names.now)
        (flat_map (item_things (meaning names.now)) items.now)) }
{
    let mut told: Option<Broken> = None;
    for item in items {
        told = sooner(told, item_told(alloc, names, item)?);
    }
    Ok(told)
}
