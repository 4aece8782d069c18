//! What a name means as a value and as what is called.
ghost use Rattle.std.specs.Prelude.{◌≡◌, IfOk};
ghost use Rattle.mql_names.specs.Types.{named_sort};
ghost use Rattle.mql_scope.specs.Places.{context_at};
ghost use Rattle.mql_scope.specs.Names.{name_info, outer_info, has_function, called_type, called_native, called_sort, called_outside, callee};

use crate::facts::ProgramFacts;
use crate::here::Here;
use crate::supplied::supplied_info;
use crate::types::sort_type;
use crate::variables::{member_named, of_variable_named, variable_named};
use fx8::OutOfMemory;
use mql_names::Sort;
use mql_syntax::Place;
use mql_typed::Info;
use mql_types::{Base, Signature};
use natives::{Native, named};
use std::alloc::Global;

/// What a name is that is called.
#[derive(Clone, Copy)]
pub enum Callee {
    /// Functions of the program.
    Functions,
    /// An enumeration, or another name of `int`: a conversion to it.
    Conversion(Base),
    /// A native function.
    Supplied(Native),
    /// Something else of this name.
    Other,
    Unknown,
}

fn outer_info<P: ProgramFacts>(
    alloc: Global,
    here: &Here<'_, P>,
    place: Place,
    name: &[u16],
) -> Result<Option<Info>, OutOfMemory>
    ensures { IfOk result (λ i. i ≡ outer_info (context_at P.program here.now) place name.now) }
{
    match member_named(alloc, name, here.program.enumerations())? {
        Some(i) => Ok(Some(i)),
        None => supplied_info(alloc, here, place, name),
    }
}

/// What is told of the value or the variable that a name is, if it is one.
pub fn name_info<P: ProgramFacts>(
    alloc: Global,
    here: &Here<'_, P>,
    place: Place,
    name: &[u16],
) -> Result<Option<Info>, OutOfMemory>
    ensures { IfOk result (λ i. i ≡ name_info (context_at P.program here.now) place name.now) }
{
    if let Some(i) = of_variable_named(alloc, name, here.locals) {
        return Ok(Some(i));
    }
    if let Some(i) = of_variable_named(alloc, name, here.program.globals()) {
        return Ok(Some(i));
    }
    outer_info(alloc, here, place, name)
}

fn has_function(name: &[u16], functions: &[Signature]) -> bool
    ensures { result ≡ has_function name.now functions.now }
{
    let mut rest = functions;
    while let [f, others @ ..] = rest {
        if f.name.as_slice() == name {
            return true;
        }
        rest = others;
    }
    false
}

fn called_type(of: Option<Base>) -> Callee
    ensures { result ≡ called_type of }
{
    match of {
        None => Callee::Other,
        Some(Base::Structure(_)) => Callee::Other,
        Some(b) => Callee::Conversion(b),
    }
}

fn called_native(native: Option<Native>) -> Callee
    ensures { result ≡ called_native native }
{
    match native {
        None => Callee::Unknown,
        Some(f) => Callee::Supplied(f),
    }
}

fn called_sort<P: ProgramFacts>(
    program: &P,
    name: &[u16],
    sort: Sort,
) -> Result<Callee, OutOfMemory>
    ensures { IfOk result (λ c. c ≡ called_sort (P.program program.now) name.now sort) }
{
    match sort {
        Sort::Unknown => {
            if program.is_declared(name) {
                return Ok(Callee::Other);
            }
            Ok(called_native(named(name)))
        }
        _ => Ok(called_type(sort_type(program, name, sort)?)),
    }
}

fn called_outside<P: ProgramFacts>(
    alloc: Global,
    here: &Here<'_, P>,
    place: Place,
    name: &[u16],
) -> Result<Callee, OutOfMemory>
    ensures { IfOk result (λ c. c ≡ called_outside (context_at P.program here.now) place name.now) }
{
    if name_info(alloc, here, place, name)?.is_some() {
        return Ok(Callee::Other);
    }
    called_sort(here.program, name, here.program.named_sort(name))
}

/// What a name is that is called.
pub fn callee_of<P: ProgramFacts>(
    alloc: Global,
    here: &Here<'_, P>,
    place: Place,
    name: &[u16],
) -> Result<Callee, OutOfMemory>
    ensures { IfOk result (λ c. c ≡ callee (context_at P.program here.now) place name.now) }
{
    if variable_named(name, here.locals).is_some() {
        return Ok(Callee::Other);
    }
    if has_function(name, here.program.functions()) {
        return Ok(Callee::Functions);
    }
    called_outside(alloc, here, place, name)
}
