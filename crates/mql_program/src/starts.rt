//! Defaults of parameters, at the parameter or where the function is announced.
ghost use Rattle.std.specs.Prelude.{◌≡◌, IfOk};
ghost use Rattle.std.specs.Option.{option_copied};
ghost use Rattle.mql_names.specs.Maps.{meaning};
ghost use Rattle.mql_program.specs.Lists.{all_lent};
ghost use Rattle.mql_program.specs.Programs.{said, said_of, start_at, start_where, announced_start, default_start};

use crate::functions::is_one_function;
use fx8::OutOfMemory;
use mql_names::Meanings;
use mql_syntax::{Function, Param, Start};
use std::alloc::Global;

fn said(start: &Start) -> Option<&Start>
    ensures { option_copied result ≡ said start.now }
{
    match start {
        Start::Zero => None,
        Start::Value(_) | Start::Arguments(_) => Some(start),
    }
}

fn start_at(place: u32, params: &[Param]) -> Option<&Start>
    ensures { option_copied result ≡ start_at place params.now }
{
    match params.get(place as usize) {
        None => None,
        Some(q) => said(&q.variable.start),
    }
}

fn start_where<'a>(
    alloc: Global,
    names: &Meanings<'_>,
    f: &Function,
    place: u32,
    g: &'a Function,
) -> Result<Option<&'a Start>, OutOfMemory>
    ensures { IfOk result (λ s. option_copied s ≡ start_where (meaning names.now) f.now place g.now) }
{
    if is_one_function(alloc, names, f, g)? {
        return Ok(start_at(place, g.params.as_slice()));
    }
    Ok(None)
}

/// The first default that stands where the function is announced.
fn announced_start<'a>(
    alloc: Global,
    names: &Meanings<'_>,
    f: &Function,
    place: u32,
    announced: &[&'a Function],
) -> Result<Option<&'a Start>, OutOfMemory>
    ensures { IfOk result (λ s. option_copied s ≡
        announced_start (meaning names.now) f.now place (all_lent announced.now)) }
{
    let mut rest = announced;
    while let [g, others @ ..] = rest {
        if let Some(start) = start_where(alloc, names, f, place, *g)? {
            return Ok(Some(start));
        }
        rest = others;
    }
    Ok(None)
}

/// The default of a function's parameter, at the parameter or where the function is announced.
pub(crate) fn default_start<'a>(
    alloc: Global,
    names: &Meanings<'_>,
    announced: &[&'a Function],
    f: &'a Function,
    place: u32,
) -> Result<Option<&'a Start>, OutOfMemory>
    ensures { IfOk result (λ s. option_copied s ≡
        default_start (meaning names.now) (all_lent announced.now) f.now place) }
{
    match start_at(place, f.params.as_slice()) {
        Some(start) => Ok(Some(start)),
        None => announced_start(alloc, names, f, place, announced),
    }
}
