//! Functions that have a body: what they are typed, and what is broken in them.
ghost use Rattle.std.specs.Prelude.{◌≡◌, [], ◌∷◌, IfOk, if◌then◌else◌};
ghost use Rattle.mql_names.specs.Types.{is_defined};
ghost use Rattle.mql_program.specs.Programs.{functions_in, defined_functions};
ghost use Rattle.mql_check.specs.Functions.{body_told, body_closes, end_reached, function_rule, function_broken, function_used, result_type, typed_function, body_of, no_bodies, then_bodies, bodies};

use crate::lists::{counted, number_of};
use crate::params::{param_types, params_broken, params_known, params_used, references};
use fx8::{ItemList, OutOfMemory, Text};
use mql_expressions::{innermost, with_rule};
use mql_meaning::{Function as TypedFunction, Statement, VarType};
use mql_names::{Broken, body_parts, is_defined};
use mql_program::result_of;
use mql_scope::{Here, ProgramFacts};
use mql_statement_walk::told_all;
use mql_statements::{Static, Told, closes};
use mql_syntax::{Body, Function, Item};
use mql_typed::{single, var_type};
use mql_types::Base;
use std::alloc::Global;

/// What functions that have a body are typed, one after another, and what is broken in them.
#[derive(Drop)]
pub struct Bodies {
    pub functions: ItemList<TypedFunction>,
    /// Their static variables.
    pub statics: ItemList<Static>,
    /// The rules that may be told.
    pub broken: ItemList<Broken>,
    /// The numbers of the functions that are called.
    pub used: ItemList<u32>,
}

/// What a function's body is told, with the number of its first static variable.
fn body_told<P: ProgramFacts>(
    alloc: Global,
    program: &P,
    statics: u32,
    f: &Function,
) -> Result<Told, OutOfMemory>
    ensures { IfOk result (λ t. t ≡ body_told (P.program program.now) statics f.now) }
{
    let params = params_known(alloc, program, f.params.as_slice())?;
    let result_is = result_of(program, f)?;
    let next = number_of(f.params.len())?;
    let here = Here {
        program,
        function: f.name.as_slice(),
        result: result_is,
        breaks: false,
        continues: false,
        locals: &[],
        next,
        statics,
    };
    told_all(alloc, &here, params, body_parts(&f.body))
}

fn body_closes(body: &Body) -> bool
    ensures { result ≡ body_closes body.now }
{
    match body {
        Body::Block(s) => closes(s),
        Body::Declared | Body::Pure => true,
    }
}

/// Whether the end of a function with a result can be reached.
fn end_reached(of: Option<Base>, body: &Body) -> bool
    ensures { result ≡ end_reached of body.now }
{
    of.is_some() && !body_closes(body)
}

/// 40: the end of a function with a result can be reached.
fn function_rule<P: ProgramFacts>(program: &P, f: &Function) -> Result<Option<u8>, OutOfMemory>
    ensures { IfOk result (λ r. r ≡ function_rule (P.program program.now) f.now) }
{
    let of = result_of(program, f)?;
    let reached = end_reached(of, &f.body);
    if reached { Ok(Some(40)) } else { Ok(None) }
}

/// What is broken in a function, by what is broken in its body.
fn function_broken<P: ProgramFacts>(
    alloc: Global,
    program: &P,
    f: &Function,
    inner: ItemList<Broken>,
) -> Result<ItemList<Broken>, OutOfMemory>
    ensures { IfOk result (λ bs. bs ≡ function_broken (P.program program.now) f.now inner) }
{
    let mut all = params_broken(alloc, program, f.params.as_slice())?;
    let rule = function_rule(program, f)?;
    let own = with_rule(inner, f.place, rule)?;
    all.append(own)?;
    innermost(alloc, f.place, all)
}

/// The functions that a function calls, by those that its body calls.
fn function_used<P: ProgramFacts>(
    alloc: Global,
    program: &P,
    f: &Function,
    inner: ItemList<u32>,
) -> Result<ItemList<u32>, OutOfMemory>
    ensures { IfOk result (λ ns. ns ≡ function_used (P.program program.now) f.now inner) }
{
    let mut all = params_used(alloc, program, f.params.as_slice())?;
    all.append(inner)?;
    Ok(all)
}

fn result_type(alloc: Global, of: Option<Base>) -> Result<Option<VarType>, OutOfMemory>
    ensures { IfOk result (λ t. t ≡ result_type of) }
{
    match of {
        None => Ok(None),
        Some(b) => {
            let t = var_type(alloc, single(b))?;
            Ok(Some(t))
        }
    }
}

/// A typed function, of the locals behind its parameters and of its statements.
fn typed_function<P: ProgramFacts>(
    alloc: Global,
    program: &P,
    f: &Function,
    kept: ItemList<VarType>,
    steps: ItemList<Statement>,
) -> Result<TypedFunction, OutOfMemory>
    ensures { IfOk result (λ r. r ≡ typed_function (P.program program.now) f.now kept steps) }
{
    let name = Text::from_slice(alloc, f.name.as_slice())?;
    let lent = references(alloc, f.params.as_slice())?;
    let mut locals = param_types(alloc, program, f.params.as_slice())?;
    locals.append(kept)?;
    let of = result_of(program, f)?;
    let gives = result_type(alloc, of)?;
    Ok(TypedFunction {
        name,
        class: None,
        makes: false,
        lent,
        locals,
        result: gives,
        body: steps,
    })
}

fn body_of<P: ProgramFacts>(
    alloc: Global,
    program: &P,
    f: &Function,
    t: Told,
) -> Result<Bodies, OutOfMemory>
    ensures { IfOk result (λ b. b ≡ body_of (P.program program.now) f.now t) }
{
    let Told {
        typed,
        kept,
        statics,
        broken,
        used,
        ..
    } = t;
    let one = typed_function(alloc, program, f, kept, typed)?;
    let mut functions = ItemList::new(alloc);
    functions.push(one)?;
    let broken = function_broken(alloc, program, f, broken)?;
    let used = function_used(alloc, program, f, used)?;
    Ok(Bodies {
        functions,
        statics,
        broken,
        used,
    })
}

fn no_bodies(alloc: Global) -> Bodies
    ensures { result ≡ no_bodies }
{
    Bodies {
        functions: ItemList::new(alloc),
        statics: ItemList::new(alloc),
        broken: ItemList::new(alloc),
        used: ItemList::new(alloc),
    }
}

fn then_bodies(a: Bodies, b: Bodies) -> Result<Bodies, OutOfMemory>
    ensures { IfOk result (λ r. r ≡ then_bodies a b) }
{
    let Bodies {
        mut functions,
        mut statics,
        mut broken,
        mut used,
    } = a;
    functions.append(b.functions)?;
    statics.append(b.statics)?;
    broken.append(b.broken)?;
    used.append(b.used)?;
    Ok(Bodies {
        functions,
        statics,
        broken,
        used,
    })
}

/// What a function is typed, if it has a body.
#[tactic(auto, using(crate::proofs::Walks::one_body))]
fn function_body<P: ProgramFacts>(
    alloc: Global,
    program: &P,
    statics: u32,
    f: &Function,
) -> Result<Bodies, OutOfMemory>
    ensures { IfOk result (λ b. b ≡
        bodies (P.program program.now) statics (if is_defined f.now.body then f.now ∷ [] else [])) }
{
    if !is_defined(&f.body) {
        return Ok(no_bodies(alloc));
    }
    let t = body_told(alloc, program, statics, f)?;
    body_of(alloc, program, f, t)
}

/// What the function that an item is is typed, if it is one that has a body.
fn item_body<P: ProgramFacts>(
    alloc: Global,
    program: &P,
    statics: u32,
    item: &Item,
) -> Result<Bodies, OutOfMemory>
    ensures { IfOk result (λ b. b ≡ bodies (P.program program.now) statics (functions_in item.now)) }
{
    match item {
        Item::Function(f) => function_body(alloc, program, statics, f),
        _ => Ok(no_bodies(alloc)),
    }
}

/// What the functions of a program that have a body are typed, with the number of their first static
/// variable.
pub(crate) fn told_bodies<P: ProgramFacts>(
    alloc: Global,
    program: &P,
    first: u32,
    items: &[Item],
) -> Result<Bodies, OutOfMemory>
    ensures { IfOk result (λ b. b ≡ bodies (P.program program.now) first (defined_functions items.now)) }
{
    let mut all = no_bodies(alloc);
    let mut statics = first;
    for item in items {
        let one = item_body(alloc, program, statics, item)?;
        let taken = one.statics.len();
        statics = counted(statics, taken)?;
        all = then_bodies(all, one)?;
    }
    Ok(all)
}
