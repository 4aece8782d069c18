//! Inputs.
ghost use Rattle.std.specs.Prelude.{◌≡◌, [], IfOk};
ghost use Rattle.std.specs.List.{flat_map};
ghost use Rattle.mql_program.specs.Programs.{variables_in};
ghost use Rattle.mql_check.specs.Made.{constant_or_zero, start_value, members_of, input, input_at, inputs_from};

use crate::lists::{counted, variables_at};
use fx8::{ItemList, OutOfMemory, Text};
use mql_mean::Value;
use mql_meaning::{Input, Member};
use mql_program::{SourceFacts, as_type_or_zero, global_type, is_input, zero_value};
use mql_scope::ProgramFacts;
use mql_syntax::{Item, Start, Variable};
use mql_types::Base;
use std::alloc::Global;

fn constant_or_zero<S: SourceFacts>(
    alloc: Global,
    source: &S,
    b: Base,
    constant: Option<Value>,
) -> Result<Value, OutOfMemory>
    ensures { IfOk result (λ v. v ≡ constant_or_zero (S.given source.now) b constant) }
{
    match constant {
        None => Ok(zero_value(alloc, b)),
        Some(x) => as_type_or_zero(alloc, source, b, x),
    }
}

/// The value that an input of a type has where none was set.
fn start_value<S: SourceFacts>(
    alloc: Global,
    source: &S,
    b: Base,
    start: &Start,
) -> Result<Value, OutOfMemory>
    ensures { IfOk result (λ v. v ≡ start_value (S.given source.now) b start.now) }
{
    match start {
        Start::Value(v) => {
            let constant = source.constant(alloc, &[], v)?;
            constant_or_zero(alloc, source, b, constant)
        }
        _ => Ok(zero_value(alloc, b)),
    }
}

fn copied(alloc: Global, members: &[Member]) -> Result<ItemList<Member>, OutOfMemory>
    ensures { IfOk result (λ ms. ms ≡ members.now) }
{
    let mut all = ItemList::new(alloc);
    let mut rest = members;
    while let [member, others @ ..] = rest {
        let name = Text::from_slice(alloc, member.name.as_slice())?;
        all.push(Member {
            name,
            value: member.value,
        })?;
        rest = others;
    }
    Ok(all)
}

/// The members of a type, if it is an enumeration.
fn members_of<P: ProgramFacts>(
    alloc: Global,
    program: &P,
    b: Base,
) -> Result<ItemList<Member>, OutOfMemory>
    ensures { IfOk result (λ ms. ms ≡ members_of (P.program program.now) b) }
{
    match b {
        Base::Enumeration(n) => match program.enumerations().get(n as usize) {
            None => Ok(ItemList::new(alloc)),
            Some(e) => copied(alloc, e.members.as_slice()),
        },
        _ => Ok(ItemList::new(alloc)),
    }
}

/// The input that the global variable of a number is.
fn input<P: ProgramFacts, S: SourceFacts>(
    alloc: Global,
    source: &S,
    program: &P,
    n: u32,
    v: &Variable,
) -> Result<Input, OutOfMemory>
    ensures { IfOk result (λ i. i ≡ input (S.given source.now) (P.program program.now) n v.now) }
{
    let t = global_type(alloc, program, v)?;
    let name = Text::from_slice(alloc, v.name.as_slice())?;
    let default = start_value(alloc, source, t.base, &v.start)?;
    let members = members_of(alloc, program, t.base)?;
    Ok(Input {
        global: n,
        name,
        optimisable: v.words.is_input,
        default,
        members,
    })
}

fn input_at<P: ProgramFacts, S: SourceFacts>(
    alloc: Global,
    source: &S,
    program: &P,
    n: u32,
    v: &Variable,
) -> Result<ItemList<Input>, OutOfMemory>
    ensures { IfOk result (λ is. is ≡ input_at (S.given source.now) (P.program program.now) n v.now) }
{
    let mut list = ItemList::new(alloc);
    if !is_input(v) {
        return Ok(list);
    }
    let i = input(alloc, source, program, n, v)?;
    list.push(i)?;
    Ok(list)
}

/// The input that an item declares, if it declares one, with the number of its global variable.
fn item_inputs<P: ProgramFacts, S: SourceFacts>(
    alloc: Global,
    source: &S,
    program: &P,
    n: u32,
    item: &Item,
) -> Result<ItemList<Input>, OutOfMemory>
    ensures { IfOk result (λ is. is ≡
        inputs_from (S.given source.now) (P.program program.now) n (variables_in item.now)) }
{
    match item {
        Item::Variable(v) => input_at(alloc, source, program, n, v),
        _ => Ok(ItemList::new(alloc)),
    }
}

/// The inputs of a program.
pub(crate) fn inputs_from<P: ProgramFacts, S: SourceFacts>(
    alloc: Global,
    source: &S,
    program: &P,
    items: &[Item],
) -> Result<ItemList<Input>, OutOfMemory>
    ensures { IfOk result (λ is. is ≡
        inputs_from (S.given source.now) (P.program program.now) 0 (flat_map variables_in items.now)) }
{
    let mut all = ItemList::new(alloc);
    let mut n: u32 = 0;
    for item in items {
        let one = item_inputs(alloc, source, program, n, item)?;
        let more = variables_at(item);
        n = counted(n, more)?;
        all.append(one)?;
    }
    Ok(all)
}
