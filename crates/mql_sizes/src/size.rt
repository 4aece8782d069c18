//! Sizes of arrays.
ghost use Rattle.std.specs.Prelude.{◌≡◌, ◌≤◌, ◌^◌, ◌<◌, not, IfOk, IfSome, Option, Some, ℕ, List};
ghost use Rattle.mql_names.specs.Maps.{meaning};
ghost use Rattle.mql_names.specs.Faults.{told};
ghost use Rattle.mql_sizes.specs.Maps.{value_at};
ghost use Rattle.mql_sizes.specs.Members.{constant_in};
ghost use Rattle.mql_sizes.specs.Sizes as spec;
ghost use Rattle.mql_walk.specs.Things.{things_of, told_by};

use crate::constant::{Values, constant_in};
use fx8::{OutOfMemory, Text};
use mql_names::{Broken, Meanings, break_if};
use mql_syntax::{
    Class, Dimension, Function, Member, Operation, Place, StatementKind, Syntax, TypeUse, Value,
    Variable,
};
use mql_walk::{Judge, judged};
use natives::ConstantValue;
use std::alloc::Global;

/// The size that a constant gives a dimension, if it does.
fn size_of(constant: Option<ConstantValue>) -> Option<u32>
    ensures { result ≡ spec.size_of constant }
{
    match constant {
        None => None,
        Some(ConstantValue::Integer(_, x)) => {
            if 1 <= x && x <= 1_000_000 {
                Some(x as u32)
            } else {
                None
            }
        }
        Some(ConstantValue::Double(_)) => None,
    }
}

/// The size that a value gives a dimension, where these locals are in force, if it does.
pub fn size_in(
    alloc: Global,
    names: &Meanings<'_>,
    values: &Values<'_>,
    locals: &[Text],
    v: &Value,
) -> Result<Option<u32>, OutOfMemory>
    ensures { IfOk result (λ size. size ≡
        spec.size_of (constant_in (meaning names.now) (value_at values.now) locals.now v.now)) }
{
    Ok(size_of(constant_in(alloc, names, values, locals, v)?))
}

/// So many elements times a size, if they are not too many.
fn times(n: u32, size: Option<u32>) -> Option<u32>
    ensures { result ≡ spec.times n size }
{
    match size {
        None => None,
        Some(k) => fewest(n as u64 * k as u64),
    }
}

fn fewest(n: u64) -> Option<u32>
    ensures { result ≡ spec.fewest n }
{
    if n <= 1_000_000 { Some(n as u32) } else { None }
}

fn after(
    alloc: Global,
    names: &Meanings<'_>,
    values: &Values<'_>,
    locals: &[Text],
    n: u32,
    dimension: &Dimension,
) -> Result<Option<u32>, OutOfMemory>
    ensures { IfOk result (λ r. r ≡
        spec.after (meaning names.now) (value_at values.now) locals.now n dimension.now) }
{
    match dimension {
        Dimension::Open => Ok(Some(n)),
        Dimension::Size(v) => Ok(times(n, size_in(alloc, names, values, locals, v)?)),
    }
}

fn sizes_hold(
    alloc: Global,
    names: &Meanings<'_>,
    values: &Values<'_>,
    locals: &[Text],
    dimensions: &[Dimension],
) -> Result<bool, OutOfMemory>
    ensures { IfOk result (λ b. b ≡
        spec.sizes_hold (meaning names.now) (value_at values.now) locals.now 1 dimensions.now) }
{
    let mut n: u32 = 1;
    let mut rest = dimensions;
    while let [dimension, others @ ..] = rest {
        match after(alloc, names, values, locals, n, dimension)? {
            None => return Ok(false),
            Some(more) => n = more,
        }
        rest = others;
    }
    Ok(true)
}

/// The rule on sizes, where names mean this.
#[derive(Drop)]
struct Sizes<'a, 'n, 'v> {
    alloc: Global,
    names: &'a Meanings<'n>,
    values: &'a Values<'v>,
}

impl Judge for Sizes<'_, '_, '_> {
    ghost breaks = { λ s t. spec.sizes (meaning s.names.now) (value_at s.values.now) t };

    fn on_type(&self, _of: &TypeUse) -> Option<Broken> {
        None
    }

    fn on_value(&self, _locals: &[Text], _place: Place, _what: &Operation) -> Option<Broken> {
        None
    }

    fn on_statement(&self, _place: Place, _what: StatementKind) -> Option<Broken> {
        None
    }

    fn on_variable(&self, locals: &[Text], v: &Variable) -> Result<Option<Broken>, OutOfMemory> {
        let dimensions = v.dimensions.as_slice();
        let hold = sizes_hold(self.alloc, self.names, self.values, locals, dimensions)?;
        Ok(break_if(!hold, 13, v.place))
    }

    fn on_function(&self, _f: &Function) -> Option<Broken> {
        None
    }

    fn on_structure(&self, _c: &Class) -> Option<Broken> {
        None
    }

    fn on_member(&self, _m: &Member) -> Option<Broken> {
        None
    }
}

/// What is told of the sizes of a program's arrays.
pub fn sizes_told<'a, 'n, 'v>(
    alloc: Global,
    names: &'a Meanings<'n>,
    values: &'a Values<'v>,
    syntax: &Syntax,
) -> Result<Option<Broken>, OutOfMemory>
    ensures { IfOk result (λ b. b ≡
        told_by (spec.sizes (meaning names.now) (value_at values.now)) (things_of syntax.now)) }
{
    let judge = Sizes {
        alloc,
        names,
        values,
    };
    judged(alloc, &judge, syntax)
}
