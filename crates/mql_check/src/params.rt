//! The parameters of functions.
ghost use Rattle.std.specs.Prelude.{◌≡◌, map, IfOk};
ghost use Rattle.std.specs.List.{flat_map};
ghost use Rattle.mql_check.specs.Functions.{param_known, params_known, param_type, is_reference, no_conversion, constant_rule, value_rule, default_rule, start_broken, start_used, param_rule, param_broken, param_used};

use crate::lists::counted;
use crate::outside::{dimensions_broken, found_outside, sizes_used};
use fx8::{ItemList, OutOfMemory};
use mql_expressions::{innermost, with_rule};
use mql_meaning::VarType;
use mql_names::Broken;
use mql_program::global_type;
use mql_scope::{Known, ProgramFacts, Storage};
use mql_statements::known;
use mql_syntax::{Param, Start, Value};
use mql_typed::{Info, value_base, var_type};
use mql_types::{Base, fits};
use std::alloc::Global;

/// What is known of a parameter that is the local of a number.
fn param_known<P: ProgramFacts>(
    alloc: Global,
    program: &P,
    n: u32,
    param: &Param,
) -> Result<Known, OutOfMemory>
    ensures { IfOk result (λ k. k ≡ param_known (P.program program.now) n param.now) }
{
    let t = global_type(alloc, program, &param.variable)?;
    known(alloc, &param.variable, t, Storage::Local(n))
}

/// Parameters as the first locals of their function.
pub(crate) fn params_known<P: ProgramFacts>(
    alloc: Global,
    program: &P,
    params: &[Param],
) -> Result<ItemList<Known>, OutOfMemory>
    ensures { IfOk result (λ ks. ks ≡ params_known (P.program program.now) 0 params.now) }
{
    let mut all = ItemList::new(alloc);
    let mut n: u32 = 0;
    let mut rest = params;
    while let [param, others @ ..] = rest {
        let k = param_known(alloc, program, n, param)?;
        all.push(k)?;
        n = counted(n, 1)?;
        rest = others;
    }
    Ok(all)
}

fn param_type<P: ProgramFacts>(
    alloc: Global,
    program: &P,
    param: &Param,
) -> Result<VarType, OutOfMemory>
    ensures { IfOk result (λ t. t ≡ param_type (P.program program.now) param.now) }
{
    let t = global_type(alloc, program, &param.variable)?;
    var_type(alloc, t)
}

/// The types of parameters.
pub(crate) fn param_types<P: ProgramFacts>(
    alloc: Global,
    program: &P,
    params: &[Param],
) -> Result<ItemList<VarType>, OutOfMemory>
    ensures { IfOk result (λ ts. ts ≡ map (param_type (P.program program.now)) params.now) }
{
    let mut all = ItemList::new(alloc);
    let mut rest = params;
    while let [param, others @ ..] = rest {
        let t = param_type(alloc, program, param)?;
        all.push(t)?;
        rest = others;
    }
    Ok(all)
}

/// Which parameters are references.
pub(crate) fn references(alloc: Global, params: &[Param]) -> Result<ItemList<bool>, OutOfMemory>
    ensures { IfOk result (λ bs. bs ≡ map is_reference params.now) }
{
    let mut all = ItemList::new(alloc);
    let mut rest = params;
    while let [param, others @ ..] = rest {
        all.push(param.reference)?;
        rest = others;
    }
    Ok(all)
}

/// Whether what an expression gives has no conversion to a type.
fn no_conversion(b: Base, info: &Option<Info>) -> bool
    ensures { result ≡ no_conversion b info.now }
{
    match info {
        None => false,
        Some(i) => match value_base(i) {
            None => false,
            Some(a) => !fits(a, b),
        },
    }
}

/// 36: an expression is not constant.
pub(crate) fn constant_rule<P: ProgramFacts>(
    alloc: Global,
    program: &P,
    v: &Value,
) -> Result<Option<u8>, OutOfMemory>
    ensures { IfOk result (λ r. r ≡ constant_rule (P.program program.now) v.now) }
{
    match program.constant(alloc, &[], v)? {
        None => Ok(Some(36)),
        Some(_) => Ok(None),
    }
}

/// 13: a default has no conversion to its parameter; 36: it is not constant.
fn value_rule<P: ProgramFacts>(
    alloc: Global,
    program: &P,
    b: Base,
    v: &Value,
) -> Result<Option<u8>, OutOfMemory>
    ensures { IfOk result (λ r. r ≡ value_rule (P.program program.now) b v.now) }
{
    let found = found_outside(alloc, program, v)?;
    if no_conversion(b, &found.info) {
        return Ok(Some(13));
    }
    constant_rule(alloc, program, v)
}

fn default_rule<P: ProgramFacts>(
    alloc: Global,
    program: &P,
    b: Base,
    start: &Start,
) -> Result<Option<u8>, OutOfMemory>
    ensures { IfOk result (λ r. r ≡ default_rule (P.program program.now) b start.now) }
{
    match start {
        Start::Zero => Ok(None),
        Start::Value(v) => value_rule(alloc, program, b, v),
        Start::Arguments(_) => Ok(Some(36)),
    }
}

fn start_broken<P: ProgramFacts>(
    alloc: Global,
    program: &P,
    start: &Start,
) -> Result<ItemList<Broken>, OutOfMemory>
    ensures { IfOk result (λ bs. bs ≡ start_broken (P.program program.now) start.now) }
{
    match start {
        Start::Value(v) => {
            let found = found_outside(alloc, program, v)?;
            Ok(found.broken)
        }
        _ => Ok(ItemList::new(alloc)),
    }
}

fn start_used<P: ProgramFacts>(
    alloc: Global,
    program: &P,
    start: &Start,
) -> Result<ItemList<u32>, OutOfMemory>
    ensures { IfOk result (λ ns. ns ≡ start_used (P.program program.now) start.now) }
{
    match start {
        Start::Value(v) => {
            let found = found_outside(alloc, program, v)?;
            Ok(found.used)
        }
        _ => Ok(ItemList::new(alloc)),
    }
}

/// The rule that a parameter breaks by itself.
fn param_rule<P: ProgramFacts>(
    alloc: Global,
    program: &P,
    param: &Param,
) -> Result<Option<u8>, OutOfMemory>
    ensures { IfOk result (λ r. r ≡ param_rule (P.program program.now) param.now) }
{
    let t = global_type(alloc, program, &param.variable)?;
    default_rule(alloc, program, t.base, &param.variable.start)
}

/// What is broken in a parameter.
fn param_broken<P: ProgramFacts>(
    alloc: Global,
    program: &P,
    param: &Param,
) -> Result<ItemList<Broken>, OutOfMemory>
    ensures { IfOk result (λ bs. bs ≡ param_broken (P.program program.now) param.now) }
{
    let mut all = dimensions_broken(alloc, program, &param.variable)?;
    let inner = start_broken(alloc, program, &param.variable.start)?;
    let rule = param_rule(alloc, program, param)?;
    let own = with_rule(inner, param.variable.place, rule)?;
    all.append(own)?;
    innermost(alloc, param.variable.place, all)
}

/// The functions that a parameter's sizes and its default call.
fn param_used<P: ProgramFacts>(
    alloc: Global,
    program: &P,
    param: &Param,
) -> Result<ItemList<u32>, OutOfMemory>
    ensures { IfOk result (λ ns. ns ≡ param_used (P.program program.now) param.now) }
{
    let mut all = sizes_used(alloc, program, &param.variable)?;
    let more = start_used(alloc, program, &param.variable.start)?;
    all.append(more)?;
    Ok(all)
}

/// What is broken in parameters.
pub(crate) fn params_broken<P: ProgramFacts>(
    alloc: Global,
    program: &P,
    params: &[Param],
) -> Result<ItemList<Broken>, OutOfMemory>
    ensures { IfOk result (λ bs. bs ≡ flat_map (param_broken (P.program program.now)) params.now) }
{
    let mut all = ItemList::new(alloc);
    let mut rest = params;
    while let [param, others @ ..] = rest {
        let more = param_broken(alloc, program, param)?;
        all.append(more)?;
        rest = others;
    }
    Ok(all)
}

/// The functions that parameters call.
pub(crate) fn params_used<P: ProgramFacts>(
    alloc: Global,
    program: &P,
    params: &[Param],
) -> Result<ItemList<u32>, OutOfMemory>
    ensures { IfOk result (λ ns. ns ≡ flat_map (param_used (P.program program.now)) params.now) }
{
    let mut all = ItemList::new(alloc);
    let mut rest = params;
    while let [param, others @ ..] = rest {
        let more = param_used(alloc, program, param)?;
        all.append(more)?;
        rest = others;
    }
    Ok(all)
}
