//! The values of defaults.
ghost use Rattle.std.specs.Prelude.{◌≡◌, option_map, IfOk};
ghost use Rattle.std.specs.Option.{option_copied};
ghost use Rattle.mql_program.specs.Lists.{all_lent};
ghost use Rattle.mql_program.specs.Programs.{zero_value, as_type_or_zero, constant_start, default_value, default_at, default_of};
ghost use Rattle.mql_program.specs.Tables.{types_in};

use crate::globals::global_type;
use crate::source::SourceFacts;
use crate::starts::default_start;
use crate::types::Types;
use fx8::{Fix8, IntKind, ItemList, OutOfMemory};
use mql_mean::Value;
use mql_scope::ProgramFacts;
use mql_syntax::{Function, Param, Start};
use mql_types::Base;
use natives::SimpleType;
use std::alloc::Global;

/// The zero of a type: 0, the empty string, and 0 of `int` for a type that has none.
pub fn zero_value(alloc: Global, of: Base) -> Value
    ensures { result ≡ zero_value of }
{
    match of {
        Base::Simple(SimpleType::Integer(k)) => Value::Num(k, 0),
        Base::Simple(SimpleType::Double) => Value::Dbl(Fix8::of_units(0)),
        Base::Simple(SimpleType::String) => Value::Str(ItemList::new(alloc)),
        Base::Enumeration(_) | Base::Structure(_) | Base::Null => Value::Num(IntKind::Int, 0),
    }
}

/// A constant taken into a type; the type's zero where it has no value there, which typing tells.
pub fn as_type_or_zero<S: SourceFacts>(
    alloc: Global,
    source: &S,
    of: Base,
    value: Value,
) -> Result<Value, OutOfMemory>
    ensures { IfOk result (λ v. v ≡ as_type_or_zero (S.given source.now) of value) }
{
    match source.as_type(alloc, of, value)? {
        None => Ok(zero_value(alloc, of)),
        Some(v) => Ok(v),
    }
}

fn constant_start<P: ProgramFacts>(
    alloc: Global,
    program: &P,
    start: &Start,
) -> Result<Option<Value>, OutOfMemory>
    ensures { IfOk result (λ v. v ≡ constant_start (P.program program.now) start.now) }
{
    match start {
        Start::Value(v) => program.constant(alloc, &[], v),
        Start::Zero | Start::Arguments(_) => Ok(None),
    }
}

fn as_type<S: SourceFacts>(
    alloc: Global,
    source: &S,
    of: Base,
    value: Option<Value>,
) -> Result<Option<Value>, OutOfMemory>
    ensures { IfOk result (λ v. v ≡ option_map (as_type_or_zero (S.given source.now) of) value) }
{
    match value {
        None => Ok(None),
        Some(x) => Ok(Some(as_type_or_zero(alloc, source, of, x)?)),
    }
}

fn default_value<S: SourceFacts>(
    alloc: Global,
    types: &Types<'_, '_, S>,
    q: &Param,
    start: Option<&Start>,
) -> Result<Option<Value>, OutOfMemory>
    ensures { IfOk result (λ v. v ≡ default_value (S.given types.now.source.now)
        (types_in S.given types.now) q.now (option_copied start.entry)) }
{
    match start {
        None => Ok(None),
        Some(s) => {
            let constant = constant_start(alloc, types, s)?;
            let of = global_type(alloc, types, &q.variable)?;
            as_type(alloc, types.source, of.base, constant)
        }
    }
}

fn default_at<S: SourceFacts>(
    alloc: Global,
    types: &Types<'_, '_, S>,
    announced: &[&Function],
    f: &Function,
    place: u32,
) -> Result<Option<Value>, OutOfMemory>
    ensures { IfOk result (λ v. v ≡ default_at (S.given types.now.source.now)
        (types_in S.given types.now) (all_lent announced.now) f.now place) }
{
    match f.params.as_slice().get(place as usize) {
        None => Ok(None),
        Some(q) => {
            let start = default_start(alloc, types.names, announced, f, place)?;
            default_value(alloc, types, q, start)
        }
    }
}

/// The default of a parameter, by its function's number and its place.
#[tactic(auto, using(crate::proofs::Parts::lent_at, crate::proofs::Parts::none_lent_at))]
pub(crate) fn default_of<S: SourceFacts>(
    alloc: Global,
    types: &Types<'_, '_, S>,
    announced: &[&Function],
    functions: &[&Function],
    number: u32,
    place: u32,
) -> Result<Option<Value>, OutOfMemory>
    ensures { IfOk result (λ v. v ≡ default_of (S.given types.now.source.now)
        (types_in S.given types.now) (all_lent announced.now) (all_lent functions.now) number place) }
{
    match functions.get(number as usize) {
        None => Ok(None),
        Some(f) => default_at(alloc, types, announced, *f, place),
    }
}
