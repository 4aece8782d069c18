//! Global variables: what they begin with, and their rules.
ghost use Rattle.std.specs.Prelude.{◌≡◌, IfOk};
ghost use Rattle.std.specs.List.{flat_map};
ghost use Rattle.mql_program.specs.Programs.{variables_in};
ghost use Rattle.mql_check.specs.Globals.{is_simple_type, no_input_type, no_input, input_rule, global_rule, global_begun, global_steps, global_broken, global_of, nothing_begins, then_begins, globals_begin};

use crate::lists::{counted, variables_at};
use crate::outside::{dimensions_broken, outside, sizes_used};
use crate::owned::{Owned, with_owner};
use fx8::{ItemList, OutOfMemory};
use mql_expressions::with_rule;
use mql_meaning::{Expression, Statement, VarType};
use mql_names::Broken;
use mql_program::{global_type, is_input};
use mql_scope::{ProgramFacts, Storage};
use mql_starts::{Begun, start_constant, started};
use mql_statements::{evaluated, variable_type};
use mql_syntax::{Item, Variable};
use mql_types::{Base, DataType};
use std::alloc::Global;

/// What global variables begin with, one after another, in a function of their own.
#[derive(Drop)]
pub struct Beginning {
    /// What is done before the program's first event.
    pub steps: ItemList<Statement>,
    /// The locals that this takes.
    pub kept: ItemList<VarType>,
    /// What is broken in the variables.
    pub broken: ItemList<Owned>,
    /// The numbers of the functions that are called.
    pub used: ItemList<u32>,
}

fn is_simple_type(b: Base) -> bool
    ensures { result ≡ is_simple_type b }
{
    match b {
        Base::Structure(_) => false,
        _ => true,
    }
}

/// Whether no input is of this type.
fn no_input_type(t: DataType) -> bool
    ensures { result ≡ no_input_type t }
{
    t.dimensions.is_array() || !is_simple_type(t.base)
}

fn no_input<P: ProgramFacts>(
    alloc: Global,
    program: &P,
    v: &Variable,
    t: DataType,
) -> Result<bool, OutOfMemory>
    ensures { IfOk result (λ b. b ≡ no_input (P.program program.now) v.now t) }
{
    if !is_input(v) {
        return Ok(false);
    }
    let constant = start_constant(alloc, program, &[], &v.start)?;
    Ok(!constant || no_input_type(t))
}

/// 36: an initialiser of an input is not constant, or it is an array or of another type.
fn input_rule<P: ProgramFacts>(
    alloc: Global,
    program: &P,
    v: &Variable,
    t: DataType,
) -> Result<Option<u8>, OutOfMemory>
    ensures { IfOk result (λ r. r ≡ input_rule (P.program program.now) v.now t) }
{
    let refused = no_input(alloc, program, v, t)?;
    if refused { Ok(Some(36)) } else { Ok(None) }
}

/// The rule that a global variable breaks by itself.
fn global_rule<P: ProgramFacts>(
    alloc: Global,
    program: &P,
    v: &Variable,
) -> Result<Option<u8>, OutOfMemory>
    ensures { IfOk result (λ r. r ≡ global_rule (P.program program.now) v.now) }
{
    match variable_type(alloc, program, &[], v)? {
        None => Ok(Some(23)),
        Some(t) => input_rule(alloc, program, v, t),
    }
}

/// What the global variable of a number begins with.
fn global_begun<P: ProgramFacts>(
    alloc: Global,
    program: &P,
    next: u32,
    n: u32,
    v: &Variable,
) -> Result<Begun, OutOfMemory>
    ensures { IfOk result (λ b. b ≡ global_begun (P.program program.now) next n v.now) }
{
    let t = global_type(alloc, program, v)?;
    let here = outside(program, next);
    started(alloc, &here, v.place, Storage::Global(n), t, &v.start)
}

/// What is done for a global variable to begin: an input gets its value elsewhere.
fn global_steps<P: ProgramFacts>(
    alloc: Global,
    program: &P,
    v: &Variable,
    steps: ItemList<Expression>,
) -> Result<ItemList<Statement>, OutOfMemory>
    ensures { IfOk result (λ ss. ss ≡ global_steps (P.program program.now) v.now steps) }
{
    if is_input(v) {
        return Ok(ItemList::new(alloc));
    }
    evaluated(alloc, program.line(v.place), steps)
}

/// What is broken in a global variable, by what is broken where it begins.
fn global_broken<P: ProgramFacts>(
    alloc: Global,
    program: &P,
    v: &Variable,
    begun: ItemList<Broken>,
) -> Result<ItemList<Broken>, OutOfMemory>
    ensures { IfOk result (λ bs. bs ≡ global_broken (P.program program.now) v.now begun) }
{
    let mut all = dimensions_broken(alloc, program, v)?;
    let rule = global_rule(alloc, program, v)?;
    let own = with_rule(begun, v.place, rule)?;
    all.append(own)?;
    Ok(all)
}

fn global_of<P: ProgramFacts>(
    alloc: Global,
    program: &P,
    v: &Variable,
    b: Begun,
) -> Result<Beginning, OutOfMemory>
    ensures { IfOk result (λ r. r ≡ global_of (P.program program.now) v.now b) }
{
    let Begun {
        steps,
        kept,
        broken,
        used,
    } = b;
    let steps = global_steps(alloc, program, v, steps)?;
    let all = global_broken(alloc, program, v, broken)?;
    let broken = with_owner(alloc, v.place, all)?;
    let mut calls = sizes_used(alloc, program, v)?;
    calls.append(used)?;
    Ok(Beginning {
        steps,
        kept,
        broken,
        used: calls,
    })
}

fn nothing_begins(alloc: Global) -> Beginning
    ensures { result ≡ nothing_begins }
{
    Beginning {
        steps: ItemList::new(alloc),
        kept: ItemList::new(alloc),
        broken: ItemList::new(alloc),
        used: ItemList::new(alloc),
    }
}

fn then_begins(a: Beginning, b: Beginning) -> Result<Beginning, OutOfMemory>
    ensures { IfOk result (λ r. r ≡ then_begins a b) }
{
    let Beginning {
        mut steps,
        mut kept,
        mut broken,
        mut used,
    } = a;
    steps.append(b.steps)?;
    kept.append(b.kept)?;
    broken.append(b.broken)?;
    used.append(b.used)?;
    Ok(Beginning {
        steps,
        kept,
        broken,
        used,
    })
}

/// What the variable that an item declares begins with, if it is one.
#[tactic(auto, using(crate::proofs::Walks::one_begins))]
fn item_begins<P: ProgramFacts>(
    alloc: Global,
    program: &P,
    next: u32,
    n: u32,
    item: &Item,
) -> Result<Beginning, OutOfMemory>
    ensures { IfOk result (λ b. b ≡ globals_begin (P.program program.now) next n (variables_in item.now)) }
{
    match item {
        Item::Variable(v) => {
            let b = global_begun(alloc, program, next, n, v)?;
            global_of(alloc, program, v, b)
        }
        _ => Ok(nothing_begins(alloc)),
    }
}

/// What the global variables of a program begin with.
pub(crate) fn globals_begin<P: ProgramFacts>(
    alloc: Global,
    program: &P,
    items: &[Item],
) -> Result<Beginning, OutOfMemory>
    ensures { IfOk result (λ b. b ≡
        globals_begin (P.program program.now) 0 0 (flat_map variables_in items.now)) }
{
    let mut all = nothing_begins(alloc);
    let mut next: u32 = 0;
    let mut n: u32 = 0;
    for item in items {
        let one = item_begins(alloc, program, next, n, item)?;
        let taken = one.kept.len();
        let more = variables_at(item);
        next = counted(next, taken)?;
        n = counted(n, more)?;
        all = then_begins(all, one)?;
    }
    Ok(all)
}
