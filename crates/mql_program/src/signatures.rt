//! Functions as calls see them.
ghost use Rattle.std.specs.Prelude.{◌≡◌, is_some, IfOk};
ghost use Rattle.mql_names.specs.Maps.{meaning};
ghost use Rattle.mql_program.specs.Lists.{all_lent};
ghost use Rattle.mql_program.specs.Programs.{default_start, parameter, parameters_from, result_of, signature, signatures_from};
ghost use Rattle.mql_program.specs.Tables.{types_in};

use crate::globals::{global_type, next_number};
use crate::source::SourceFacts;
use crate::starts::default_start;
use crate::types::Types;
use fx8::{ItemList, OutOfMemory, Text};
use mql_names::Meanings;
use mql_scope::{ProgramFacts, written};
use mql_syntax::{Function, Param};
use mql_types::{Base, Parameter, Signature};
use std::alloc::Global;

fn has_default(
    alloc: Global,
    names: &Meanings<'_>,
    announced: &[&Function],
    f: &Function,
    place: u32,
) -> Result<bool, OutOfMemory>
    ensures { IfOk result (λ b. b ≡
        is_some (default_start (meaning names.now) (all_lent announced.now) f.now place)) }
{
    match default_start(alloc, names, announced, f, place)? {
        None => Ok(false),
        Some(_) => Ok(true),
    }
}

fn parameter<S: SourceFacts>(
    alloc: Global,
    types: &Types<'_, '_, S>,
    announced: &[&Function],
    f: &Function,
    place: u32,
    q: &Param,
) -> Result<Parameter, OutOfMemory>
    ensures { IfOk result (λ r. r ≡
        parameter (types_in S.given types.now) (all_lent announced.now) f.now place q.now) }
{
    let of = global_type(alloc, types, &q.variable)?;
    let optional = has_default(alloc, types.names, announced, f, place)?;
    Ok(Parameter {
        of,
        reference: q.reference,
        constant: q.variable.words.is_const,
        optional,
    })
}

fn parameters_of<S: SourceFacts>(
    alloc: Global,
    types: &Types<'_, '_, S>,
    announced: &[&Function],
    f: &Function,
) -> Result<ItemList<Parameter>, OutOfMemory>
    ensures { IfOk result (λ ps. ps ≡
        parameters_from (types_in S.given types.now) (all_lent announced.now) f.now 0 f.now.params) }
{
    let mut parameters = ItemList::new(alloc);
    let mut place: u32 = 0;
    let mut rest = f.params.as_slice();
    while let [q, others @ ..] = rest {
        parameters.push(parameter(alloc, types, announced, f, place, q)?)?;
        place = next_number(place)?;
        rest = others;
    }
    Ok(parameters)
}

/// The type of what a function gives; none where it gives nothing.
pub fn result_of<P: ProgramFacts>(program: &P, f: &Function) -> Result<Option<Base>, OutOfMemory>
    ensures { IfOk result (λ b. b ≡ result_of (P.program program.now) f.now) }
{
    match &f.result {
        None => Ok(None),
        Some(t) => written(program, t),
    }
}

fn signature<S: SourceFacts>(
    alloc: Global,
    types: &Types<'_, '_, S>,
    announced: &[&Function],
    number: u32,
    f: &Function,
) -> Result<Signature, OutOfMemory>
    ensures { IfOk result (λ s. s ≡
        signature (types_in S.given types.now) (all_lent announced.now) number f.now) }
{
    let name = Text::from_slice(alloc, f.name.as_slice())?;
    let parameters = parameters_of(alloc, types, announced, f)?;
    let gives = result_of(types, f)?;
    Ok(Signature {
        name,
        number,
        parameters,
        result: gives,
    })
}

/// Functions as calls see them, numbered from 0 on.
pub(crate) fn signatures_of<S: SourceFacts>(
    alloc: Global,
    types: &Types<'_, '_, S>,
    announced: &[&Function],
    functions: &[&Function],
) -> Result<ItemList<Signature>, OutOfMemory>
    ensures { IfOk result (λ ss. ss ≡
        signatures_from (types_in S.given types.now) (all_lent announced.now) 0 (all_lent functions.now)) }
{
    let mut signatures = ItemList::new(alloc);
    let mut number: u32 = 0;
    let mut rest = functions;
    while let [f, others @ ..] = rest {
        signatures.push(signature(alloc, types, announced, number, *f)?)?;
        number = next_number(number)?;
        rest = others;
    }
    Ok(signatures)
}
