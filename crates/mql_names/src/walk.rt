//! The walk over a program: what is told of all that stands in it.
ghost use Rattle.std.specs.Prelude.{◌≡◌, ℕ, Bool, List, [], ◌∷◌, ◌++◌, map, IfOk};
ghost use Rattle.std.specs.List.{flat_map};
ghost use Rattle.mql_names.specs.Maps.{meaning};
ghost use Rattle.mql_names.specs.Types.{Names};
ghost use Rattle.mql_names.specs.Things.{type_things, value_things, dimension_things, start_things, variable_things, variables_things, variable_named, own_locals, own_names, own_scope, scopes_of, shares, statement_things, list_things};
ghost use Rattle.mql_names.specs.Things as thing;
ghost use Rattle.mql_names.specs.Rules.{told_of};

use crate::fault::{Broken, sooner};
use crate::rules::{type_told, variable_told};
use crate::scope::{Named, repeated};
use crate::types::Meanings;
use fx8::{ItemList, OutOfMemory, Text};
use mql_syntax::{Dimension, Start, Statement, StatementKind, TypeUse, Value, Variable};
use std::alloc::Global;

fn types_told(names: &Meanings<'_>, types: &[TypeUse]) -> Option<Broken>
    ensures { result ≡ told_of (meaning names.now) (flat_map type_things types.now) }
{
    let mut told: Option<Broken> = None;
    for of in types {
        told = sooner(told, type_told(names, of));
    }
    told
}

#[cycle(values)]
#[tactic(auto, using(crate::proofs::Joined::at_value))]
pub(crate) fn value_told(names: &Meanings<'_>, v: &Value) -> Option<Broken>
    ensures { result ≡ told_of (meaning names.now) (value_things v.now) }
{
    match v {
        Value::Node { types, parts, .. } => sooner(
            types_told(names, types.as_slice()),
            values_told(names, parts.as_slice()),
        ),
    }
}

#[cycle(values)]
pub(crate) fn values_told(names: &Meanings<'_>, values: &[Value]) -> Option<Broken>
    ensures { result ≡ told_of (meaning names.now) (flat_map value_things values.now) }
{
    let mut told: Option<Broken> = None;
    for v in values {
        told = sooner(told, value_told(names, v));
    }
    told
}

fn dimension_told(names: &Meanings<'_>, dimension: &Dimension) -> Option<Broken>
    ensures { result ≡ told_of (meaning names.now) (dimension_things dimension.now) }
{
    match dimension {
        Dimension::Open => None,
        Dimension::Size(v) => value_told(names, v),
    }
}

fn dimensions_told(names: &Meanings<'_>, dimensions: &[Dimension]) -> Option<Broken>
    ensures { result ≡ told_of (meaning names.now) (flat_map dimension_things dimensions.now) }
{
    let mut told: Option<Broken> = None;
    for dimension in dimensions {
        told = sooner(told, dimension_told(names, dimension));
    }
    told
}

fn start_told(names: &Meanings<'_>, start: &Start) -> Option<Broken>
    ensures { result ≡ told_of (meaning names.now) (start_things start.now) }
{
    match start {
        Start::Zero => None,
        Start::Value(v) => value_told(names, v),
        Start::Arguments(values) => values_told(names, values.as_slice()),
    }
}

/// What is told of a variable, with the names of the locals in force.

pub(crate) fn whole_variable_told(names: &Meanings<'_>, v: &Variable) -> Option<Broken>
    ensures { (locals : List (List ℕ)) → result ≡ told_of (meaning names.now) (variable_things locals v.now) }
{
    let of = type_told(names, &v.of);
    let own = variable_told(names, v);
    let dimensions = dimensions_told(names, v.dimensions.as_slice());
    let start = start_told(names, &v.start);
    sooner(of, sooner(own, sooner(dimensions, start)))
}

/// The name that a variable declares.
pub(crate) fn variable_named(alloc: Global, v: &Variable) -> Result<Named, OutOfMemory>
    ensures { IfOk result (λ named. named ≡ variable_named v.now) }
{
    let name = Text::from_slice(alloc, v.name.as_slice())?;
    Ok(Named {
        place: v.place,
        name,
        form: None,
    })
}

/// Names with those of variables behind them.
pub(crate) fn with_variables(
    alloc: Global,
    mut names: ItemList<Named>,
    variables: &[Variable],
) -> Result<ItemList<Named>, OutOfMemory>
    ensures { IfOk result (λ new. new ≡ names ++ map variable_named variables.now) }
{
    for v in variables {
        names.push(variable_named(alloc, v)?)?;
    }
    Ok(names)
}

/// The variables that a statement declares in the scope around it.
pub fn own_locals(s: &Statement) -> &[Variable]
    ensures { result.now ≡ own_locals s.now }
{
    match s {
        Statement::Node { locals, .. } => locals.as_slice(),
    }
}

/// Names with those that statements declare in the scope around them.
pub(crate) fn with_statements(
    alloc: Global,
    mut names: ItemList<Named>,
    parts: &[Statement],
) -> Result<ItemList<Named>, OutOfMemory>
    ensures { IfOk result (λ new. new ≡ names ++ flat_map own_names parts.now) }
{
    for s in parts {
        names = with_variables(alloc, names, own_locals(s))?;
    }
    Ok(names)
}

/// What is told of a scope with these names.
#[tactic(auto, using(crate::proofs::Joined::at_scope))]
pub(crate) fn scope_told(alloc: Global, named: &[Named]) -> Result<Option<Broken>, OutOfMemory>
    ensures { IfOk result (λ b. (names : Names) → b ≡ told_of names (thing.scope named.now ∷ [])) }
{
    repeated(alloc, named)
}

/// What is told of a statement as a scope of its own.
fn own_scope_told(alloc: Global, s: &Statement) -> Result<Option<Broken>, OutOfMemory>
    ensures { IfOk result (λ b. (names : Names) → b ≡ told_of names (own_scope s.now)) }
{
    let named = with_variables(alloc, ItemList::new(alloc), own_locals(s))?;
    scope_told(alloc, named.as_slice())
}

fn own_scopes_told(alloc: Global, parts: &[Statement]) -> Result<Option<Broken>, OutOfMemory>
    ensures { IfOk result (λ b. (names : Names) → b ≡ told_of names (flat_map own_scope parts.now)) }
{
    let mut told: Option<Broken> = None;
    for s in parts {
        told = sooner(told, own_scope_told(alloc, s)?);
    }
    Ok(told)
}

fn one_scope_told(alloc: Global, parts: &[Statement]) -> Result<Option<Broken>, OutOfMemory>
    ensures { IfOk result (λ b. (names : Names) →
        b ≡ told_of names (thing.scope (flat_map own_names parts.now) ∷ [])) }
{
    let named = with_statements(alloc, ItemList::new(alloc), parts)?;
    scope_told(alloc, named.as_slice())
}

/// Whether the parts of a statement share one scope.
pub fn shares(what: StatementKind) -> bool
    ensures { result ≡ shares what }
{
    match what {
        StatementKind::Block | StatementKind::Switch | StatementKind::For { .. } => true,
        _ => false,
    }
}

/// What is told of the scopes that a statement makes of its parts.
fn scopes_told(
    alloc: Global,
    shared: bool,
    parts: &[Statement],
) -> Result<Option<Broken>, OutOfMemory>
    ensures { IfOk result (λ b. (names : Names) → b ≡ told_of names (scopes_of shared parts.now)) }
{
    if shared {
        one_scope_told(alloc, parts)
    } else {
        own_scopes_told(alloc, parts)
    }
}

/// What is told of variables, one after another.
fn variables_told(names: &Meanings<'_>, variables: &[Variable]) -> Option<Broken>
    ensures { (locals : List (List ℕ)) →
        result ≡ told_of (meaning names.now) (variables_things locals variables.now) }
{
    let mut told: Option<Broken> = None;
    for v in variables {
        told = sooner(told, whole_variable_told(names, v));
    }
    told
}

/// What is told of a statement.
#[cycle(statements)]
fn statement_told(
    alloc: Global,
    names: &Meanings<'_>,
    s: &Statement,
) -> Result<Option<Broken>, OutOfMemory>
    ensures { IfOk result (λ b. (locals : List (List ℕ)) →
        b ≡ told_of (meaning names.now) (statement_things locals s.now)) }
{
    match s {
        Statement::Node {
            what,
            locals,
            values,
            parts,
            ..
        } => {
            let scopes = scopes_told(alloc, shares(*what), parts.as_slice())?;
            let own = variables_told(names, locals.as_slice());
            let inner = values_told(names, values.as_slice());
            let rest = parts_told(alloc, names, parts.as_slice())?;
            Ok(sooner(scopes, sooner(own, sooner(inner, rest))))
        }
    }
}

/// What is told of statements, one after another.
#[cycle(statements)]
pub(crate) fn parts_told(
    alloc: Global,
    names: &Meanings<'_>,
    parts: &[Statement],
) -> Result<Option<Broken>, OutOfMemory>
    ensures { IfOk result (λ b. (shared : Bool) (locals : List (List ℕ)) →
        b ≡ told_of (meaning names.now) (list_things shared locals parts.now)) }
{
    let mut told: Option<Broken> = None;
    for s in parts {
        told = sooner(told, statement_told(alloc, names, s)?);
    }
    Ok(told)
}
