//! The walk over values and variables.
ghost use Rattle.std.specs.Prelude.{◌≡◌, ℕ, List, [], ◌∷◌, ◌++◌, map, IfOk};
ghost use Rattle.std.specs.List.{flat_map};
ghost use Rattle.mql_names.specs.Scopes.{is_among};
ghost use Rattle.mql_names.specs.Things.{variable_name};
ghost use Rattle.mql_walk.specs.Things.{told_by, value_things, dimension_things, start_things, variable_things, variables_things};
ghost use Rattle.mql_walk.specs.Things as thing;

use crate::judge::Judge;
use fx8::{ItemList, OutOfMemory, Text};
use mql_names::{Broken, sooner};
use mql_syntax::{Dimension, Start, TypeUse, Value, Variable};
use std::alloc::Global;

#[tactic(auto, using(crate::proofs::Joined::at_type))]
pub(crate) fn type_told<J: Judge>(judge: &J, of: &TypeUse) -> Option<Broken>
    ensures { result ≡ told_by (J.breaks judge.now) (thing.type of.now ∷ []) }
{
    judge.on_type(of)
}

fn types_told<J: Judge>(judge: &J, types: &[TypeUse]) -> Option<Broken>
    ensures { result ≡ told_by (J.breaks judge.now) (map thing.type types.now) }
{
    let mut told: Option<Broken> = None;
    for of in types {
        told = sooner(told, type_told(judge, of));
    }
    told
}

#[cycle(values)]
pub(crate) fn value_told<J: Judge>(judge: &J, locals: &[Text], v: &Value) -> Option<Broken>
    ensures { result ≡ told_by (J.breaks judge.now) (value_things locals.now v.now) }
{
    match v {
        Value::Node {
            place,
            what,
            types,
            parts,
        } => {
            let own = judge.on_value(locals, *place, what);
            let inner = types_told(judge, types.as_slice());
            let rest = values_told(judge, locals, parts.as_slice());
            sooner(own, sooner(inner, rest))
        }
    }
}

#[cycle(values)]
pub(crate) fn values_told<J: Judge>(judge: &J, locals: &[Text], values: &[Value]) -> Option<Broken>
    ensures { result ≡ told_by (J.breaks judge.now) (flat_map (value_things locals.now) values.now) }
{
    let mut told: Option<Broken> = None;
    for v in values {
        told = sooner(told, value_told(judge, locals, v));
    }
    told
}

fn dimension_told<J: Judge>(judge: &J, locals: &[Text], dimension: &Dimension) -> Option<Broken>
    ensures { result ≡ told_by (J.breaks judge.now) (dimension_things locals.now dimension.now) }
{
    match dimension {
        Dimension::Open => None,
        Dimension::Size(v) => value_told(judge, locals, v),
    }
}

fn dimensions_told<J: Judge>(judge: &J, locals: &[Text], dimensions: &[Dimension]) -> Option<Broken>
    ensures { result ≡ told_by (J.breaks judge.now)
        (flat_map (dimension_things locals.now) dimensions.now) }
{
    let mut told: Option<Broken> = None;
    for dimension in dimensions {
        told = sooner(told, dimension_told(judge, locals, dimension));
    }
    told
}

fn start_told<J: Judge>(judge: &J, locals: &[Text], start: &Start) -> Option<Broken>
    ensures { result ≡ told_by (J.breaks judge.now) (start_things locals.now start.now) }
{
    match start {
        Start::Zero => None,
        Start::Value(v) => value_told(judge, locals, v),
        Start::Arguments(values) => values_told(judge, locals, values.as_slice()),
    }
}

/// What is told of a variable, with the names of the locals in force.
pub(crate) fn variable_told<J: Judge>(
    judge: &J,
    locals: &[Text],
    v: &Variable,
) -> Result<Option<Broken>, OutOfMemory>
    ensures { IfOk result (λ b. b ≡ told_by (J.breaks judge.now) (variable_things locals.now v.now)) }
{
    let of = type_told(judge, &v.of);
    let own = judge.on_variable(locals, v)?;
    let dimensions = dimensions_told(judge, locals, v.dimensions.as_slice());
    let start = start_told(judge, locals, &v.start);
    Ok(sooner(of, sooner(own, sooner(dimensions, start))))
}

/// Whether a name is among the names of locals.
pub fn is_local(locals: &[Text], name: &[u16]) -> bool
    ensures { result ≡ is_among name.now locals.now }
{
    let mut rest = locals;
    while let [local, others @ ..] = rest {
        if local.as_slice() == name {
            return true;
        }
        rest = others;
    }
    false
}

/// The names of locals with one more.
pub fn with_local(
    alloc: Global,
    mut locals: ItemList<Text>,
    v: &Variable,
) -> Result<ItemList<Text>, OutOfMemory>
    ensures { IfOk result (λ new. new ≡ locals ++ variable_name v.now ∷ []) }
{
    locals.push(Text::from_slice(alloc, v.name.as_slice())?)?;
    Ok(locals)
}

/// The names of locals with those of variables.
pub fn with_locals(
    alloc: Global,
    mut locals: ItemList<Text>,
    variables: &[Variable],
) -> Result<ItemList<Text>, OutOfMemory>
    ensures { IfOk result (λ new. new ≡ locals ++ map variable_name variables.now) }
{
    for v in variables {
        locals = with_local(alloc, locals, v)?;
    }
    Ok(locals)
}

/// What is told of variables, one after another, and the names of the locals in force behind them.
pub(crate) fn variables_told<J: Judge>(
    alloc: Global,
    judge: &J,
    locals: ItemList<Text>,
    variables: &[Variable],
) -> Result<(Option<Broken>, ItemList<Text>), OutOfMemory>
    ensures { IfOk result (λ r. (r.0 ≡ told_by (J.breaks judge.now) (variables_things locals variables.now))
        × (r.1 ≡ locals ++ map variable_name variables.now)) }
{
    let mut told: Option<Broken> = None;
    let mut inner = locals;
    for v in variables {
        told = sooner(told, variable_told(judge, inner.as_slice(), v)?);
        inner = with_local(alloc, inner, v)?;
    }
    Ok((told, inner))
}
