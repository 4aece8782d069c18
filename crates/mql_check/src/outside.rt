//! Expressions outside functions.
ghost use Rattle.std.specs.Prelude.{◌≡◌, IfOk};
ghost use Rattle.mql_scope.specs.Places.{context_at};
ghost use Rattle.mql_check.specs.Variables.{outside, found_outside, dimension_broken, dimensions_broken, sizes_used};

use fx8::{ItemList, OutOfMemory};
use mql_expressions::{Found, found_in};
use mql_names::Broken;
use mql_scope::{Here, ProgramFacts};
use mql_starts::dimensions_used;
use mql_syntax::{Dimension, Value, Variable};
use std::alloc::Global;

/// A place outside functions, with the number of the next local.
pub(crate) fn outside<P: ProgramFacts>(program: &P, next: u32) -> Here<'_, P>
    ensures { context_at P.program result ≡ outside (P.program program.now) next }
{
    Here {
        program,
        function: &[],
        result: None,
        breaks: false,
        continues: false,
        locals: &[],
        next,
        statics: 0,
    }
}

/// What is found in an expression that no function evaluates.
pub(crate) fn found_outside<P: ProgramFacts>(
    alloc: Global,
    program: &P,
    v: &Value,
) -> Result<Found, OutOfMemory>
    ensures { IfOk result (λ f. f ≡ found_outside (P.program program.now) v.now) }
{
    let here = outside(program, 0);
    found_in(alloc, &here, v)
}

fn dimension_broken<P: ProgramFacts>(
    alloc: Global,
    program: &P,
    dimension: &Dimension,
) -> Result<ItemList<Broken>, OutOfMemory>
    ensures { IfOk result (λ bs. bs ≡ dimension_broken (P.program program.now) dimension.now) }
{
    match dimension {
        Dimension::Open => Ok(ItemList::new(alloc)),
        Dimension::Size(v) => {
            let found = found_outside(alloc, program, v)?;
            Ok(found.broken)
        }
    }
}

/// What is broken in the sizes of a variable.
pub(crate) fn dimensions_broken<P: ProgramFacts>(
    alloc: Global,
    program: &P,
    v: &Variable,
) -> Result<ItemList<Broken>, OutOfMemory>
    ensures { IfOk result (λ bs. bs ≡ dimensions_broken (P.program program.now) v.now) }
{
    let mut all = ItemList::new(alloc);
    let mut rest = v.dimensions.as_slice();
    while let [dimension, others @ ..] = rest {
        let more = dimension_broken(alloc, program, dimension)?;
        all.append(more)?;
        rest = others;
    }
    Ok(all)
}

/// The functions that the sizes of a variable call.
pub(crate) fn sizes_used<P: ProgramFacts>(
    alloc: Global,
    program: &P,
    v: &Variable,
) -> Result<ItemList<u32>, OutOfMemory>
    ensures { IfOk result (λ ns. ns ≡ sizes_used (P.program program.now) v.now) }
{
    let here = outside(program, 0);
    dimensions_used(alloc, &here, v)
}
