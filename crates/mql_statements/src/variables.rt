//! Variables that are declared: their types, and what is known of them.
ghost use Rattle.std.specs.Prelude.{◌≡◌, map, IfOk};
ghost use Rattle.mql_scope.specs.Contexts.{written};
ghost use Rattle.mql_statements.specs.Variables.{size_at, size_in, size_of, dimensions_of, typed_of, variable_type, declared_standing, known};

use fx8::{ItemList, OutOfMemory, Text};
use mql_mean::Value;
use mql_scope::{Known, ProgramFacts, Storage, written};
use mql_syntax::{Dimension, Variable};
use mql_typed::Standing;
use mql_types::{Base, DataType, Dimensions};
use std::alloc::Global;

/// A size; each element would take memory.
fn size_at(number: Option<i128>) -> Result<u32, OutOfMemory>
    ensures { IfOk result (λ n. n ≡ size_at number) }
{
    match number {
        None => Ok(0),
        Some(x) => {
            if x < 0 {
                return Ok(0);
            }
            match u32::try_from(x) {
                Ok(n) => Ok(n),
                Err(_) => Err(OutOfMemory),
            }
        }
    }
}

fn size_in(value: Option<Value>) -> Result<u32, OutOfMemory>
    ensures { IfOk result (λ n. n ≡ size_in value) }
{
    match value {
        None => Ok(0),
        Some(v) => size_at(v.number()),
    }
}

/// The size of a dimension, 0 where it changes.
pub fn size_of<P: ProgramFacts>(
    alloc: Global,
    program: &P,
    locals: &[Known],
    dimension: &Dimension,
) -> Result<u32, OutOfMemory>
    ensures { IfOk result (λ n. n ≡ size_of (P.program program.now) locals.now dimension.now) }
{
    match dimension {
        Dimension::Open => Ok(0),
        Dimension::Size(v) => size_in(program.constant(alloc, locals, v)?),
    }
}

/// The dimensions of these sizes; those behind the fourth are let go.
pub fn dimensions_of(sizes: &[u32]) -> Dimensions
    ensures { result ≡ dimensions_of sizes.now }
{
    match sizes {
        [] => Dimensions::None,
        [a] => Dimensions::One(*a),
        [a, b] => Dimensions::Two(*a, *b),
        [a, b, c] => Dimensions::Three(*a, *b, *c),
        [a, b, c, d, ..] => Dimensions::Four(*a, *b, *c, *d),
    }
}

#[tactic(auto, using(crate::proofs::ThenTold::map_more))]
fn sizes_of<P: ProgramFacts>(
    alloc: Global,
    program: &P,
    locals: &[Known],
    dimensions: &[Dimension],
) -> Result<ItemList<u32>, OutOfMemory>
    ensures { IfOk result (λ ns. ns ≡ map (size_of (P.program program.now) locals.now) dimensions.now) }
{
    let mut sizes = ItemList::new(alloc);
    for dimension in dimensions {
        sizes.push(size_of(alloc, program, locals, dimension)?)?;
    }
    Ok(sizes)
}

fn typed_of<P: ProgramFacts>(
    alloc: Global,
    program: &P,
    locals: &[Known],
    dimensions: &[Dimension],
    base: Base,
) -> Result<DataType, OutOfMemory>
    ensures { IfOk result (λ t. t ≡ typed_of (P.program program.now) locals.now dimensions.now base) }
{
    let sizes = sizes_of(alloc, program, locals, dimensions)?;
    Ok(DataType {
        base,
        dimensions: dimensions_of(sizes.as_slice()),
    })
}

/// The type of a variable where these locals are in force; none where it is of `void`.
pub fn variable_type<P: ProgramFacts>(
    alloc: Global,
    program: &P,
    locals: &[Known],
    v: &Variable,
) -> Result<Option<DataType>, OutOfMemory>
    ensures { IfOk result (λ t. t ≡ variable_type (P.program program.now) locals.now v.now) }
{
    match written(program, &v.of)? {
        None => Ok(None),
        Some(base) => Ok(Some(typed_of(alloc, program, locals, v.dimensions.as_slice(), base)?)),
    }
}

/// Whether a variable is a constant.
pub fn declared_standing(v: &Variable) -> Standing
    ensures { result ≡ declared_standing v.now }
{
    if v.words.is_const {
        Standing::Constant
    } else {
        Standing::Variable
    }
}

/// What is known of a variable.
pub fn known(
    alloc: Global,
    v: &Variable,
    of: DataType,
    stands: Storage,
) -> Result<Known, OutOfMemory>
    ensures { IfOk result (λ k. k ≡ known v.now of stands) }
{
    Ok(Known {
        name: Text::from_slice(alloc, v.name.as_slice())?,
        of,
        stands,
        standing: declared_standing(v),
    })
}
