//! Global variables.
ghost use Rattle.std.specs.Prelude.{◌≡◌, ◌+◌, [], ◌∷◌, ◌++◌, IfOk};
ghost use Rattle.std.specs.List.{flat_map};
ghost use Rattle.mql_program.specs.Lists.{all_lent};
ghost use Rattle.mql_program.specs.Programs.{is_input, variables_in, global_standing, global_known, type_or_int, global_type, globals_from};

use fx8::{IntKind, ItemList, OutOfMemory, Text};
use mql_scope::{Known, ProgramFacts, Storage};
use mql_statements::{declared_standing, variable_type};
use mql_syntax::{Item, Variable};
use mql_typed::{Standing, single};
use mql_types::{Base, DataType};
use natives::SimpleType;
use std::alloc::Global;

/// Whether a variable is an input variable (MQL5 Reference, Variables, Input Variables).
pub fn is_input(v: &Variable) -> bool
    ensures { result ≡ is_input v.now }
{
    v.words.is_input || v.words.is_static_input
}

#[tactic(auto, using(crate::proofs::Parts::lent_more))]
fn with_variable<'a>(
    mut variables: ItemList<&'a Variable>,
    item: &'a Item,
) -> Result<ItemList<&'a Variable>, OutOfMemory>
    ensures { IfOk result (λ new. all_lent new ≡ all_lent variables.entry ++ variables_in item.now) }
{
    match item {
        Item::Variable(v) => {
            variables.push(v)?;
            Ok(variables)
        }
        Item::Group(_) => Ok(variables),
        Item::Function(_) => Ok(variables),
        Item::Class(_) => Ok(variables),
        Item::Enumeration(_) => Ok(variables),
    }
}

/// The global variables of a program, in their order.
pub fn variables_in(alloc: Global, items: &[Item]) -> Result<ItemList<&Variable>, OutOfMemory>
    ensures { IfOk result (λ vs. all_lent vs ≡ flat_map variables_in items.now) }
{
    let mut variables: ItemList<&Variable> = ItemList::new(alloc);
    for item in items {
        variables = with_variable(variables, item)?;
    }
    Ok(variables)
}

fn global_standing(v: &Variable) -> Standing
    ensures { result ≡ global_standing v.now }
{
    if is_input(v) {
        Standing::Input
    } else {
        declared_standing(v)
    }
}

fn type_or_int(of: Option<DataType>) -> DataType
    ensures { result ≡ type_or_int of }
{
    match of {
        None => single(Base::Simple(SimpleType::Integer(IntKind::Int))),
        Some(t) => t,
    }
}

/// The type of a global variable or a parameter; `int` where it is of `void`, which is told elsewhere.
pub fn global_type<P: ProgramFacts>(
    alloc: Global,
    program: &P,
    v: &Variable,
) -> Result<DataType, OutOfMemory>
    ensures { IfOk result (λ t. t ≡ global_type (P.program program.now) v.now) }
{
    let of = variable_type(alloc, program, &[], v)?;
    Ok(type_or_int(of))
}

fn global_known(
    alloc: Global,
    v: &Variable,
    number: u32,
    of: DataType,
) -> Result<Known, OutOfMemory>
    ensures { IfOk result (λ k. k ≡ global_known v.now number of) }
{
    let name = Text::from_slice(alloc, v.name.as_slice())?;
    Ok(Known {
        name,
        of,
        stands: Storage::Global(number),
        standing: global_standing(v),
    })
}

/// The number of the next; each takes memory.
pub(crate) fn next_number(number: u32) -> Result<u32, OutOfMemory>
    ensures { IfOk result (λ n. n ≡ number + 1) }
{
    match number.checked_add(1) {
        Some(next) => Ok(next),
        None => Err(OutOfMemory),
    }
}

/// What is known of global variables, numbered from 0 on.
pub(crate) fn globals_of<P: ProgramFacts>(
    alloc: Global,
    program: &P,
    variables: &[&Variable],
) -> Result<ItemList<Known>, OutOfMemory>
    ensures { IfOk result (λ ks. ks ≡ globals_from (P.program program.now) 0 (all_lent variables.now)) }
{
    let mut known = ItemList::new(alloc);
    let mut number: u32 = 0;
    let mut rest = variables;
    while let [v, others @ ..] = rest {
        let of = global_type(alloc, program, *v)?;
        known.push(global_known(alloc, *v, number, of)?)?;
        number = next_number(number)?;
        rest = others;
    }
    Ok(known)
}
