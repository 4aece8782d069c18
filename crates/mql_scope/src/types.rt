//! Types as they are written, and structures and enumerations by their names.
ghost use Rattle.std.specs.Prelude.{◌≡◌, Some, option_map, IfOk};
ghost use Rattle.mql_scope.specs.Contexts.{layout_names, enumeration_names, number_named, structure_number, enumeration_number, sort_type, written};
ghost use Rattle.mql_names.specs.Types.{type_name};
ghost use Rattle.mql_types.specs.declared.types.Base.TheVariants as base;

use crate::context::{Enumeration, Layout};
use crate::facts::ProgramFacts;
use fx8::OutOfMemory;
use mql_names::Sort;
use mql_syntax::TypeUse;
use mql_types::Base;

fn number_at(place: usize) -> Result<Option<u32>, OutOfMemory>
    ensures { IfOk result (λ n. n ≡ Some place) }
{
    match u32::try_from(place) {
        Ok(n) => Ok(Some(n)),
        Err(_) => Err(OutOfMemory),
    }
}

/// The number of the last structure of a name.
#[tactic(auto, using(crate::proofs::Named::structure_hit, crate::proofs::Named::structure_miss))]
fn layout_named(name: &[u16], layouts: &[Layout]) -> Result<Option<u32>, OutOfMemory>
    ensures { IfOk result (λ n. n ≡ number_named name.now (layout_names layouts.now) 0) }
{
    let mut n = layouts.len();
    while n > 0 {
        n -= 1;
        if layouts[n].name.as_slice() == name {
            return number_at(n);
        }
    }
    Ok(None)
}

/// The number of the last enumeration of a name.
#[tactic(auto, using(crate::proofs::Named::enumeration_hit, crate::proofs::Named::enumeration_miss))]
fn enumeration_named(name: &[u16], enumerations: &[Enumeration]) -> Result<Option<u32>, OutOfMemory>
    ensures { IfOk result (λ n. n ≡ number_named name.now (enumeration_names enumerations.now) 0) }
{
    let mut n = enumerations.len();
    while n > 0 {
        n -= 1;
        if enumerations[n].name.as_slice() == name {
            return number_at(n);
        }
    }
    Ok(None)
}

/// The number of the last structure of a name: the program's hide supplied ones.
pub fn structure_number<P: ProgramFacts>(
    program: &P,
    name: &[u16],
) -> Result<Option<u32>, OutOfMemory>
    ensures { IfOk result (λ n. n ≡ structure_number (P.program program.now) name.now) }
{
    layout_named(name, program.structures())
}

/// The number of the last enumeration of a name.
pub fn enumeration_number<P: ProgramFacts>(
    program: &P,
    name: &[u16],
) -> Result<Option<u32>, OutOfMemory>
    ensures { IfOk result (λ n. n ≡ enumeration_number (P.program program.now) name.now) }
{
    enumeration_named(name, program.enumerations())
}

fn of_enumeration(number: Option<u32>) -> Option<Base>
    ensures { result ≡ option_map base.Enumeration number }
{
    match number {
        None => None,
        Some(n) => Some(Base::Enumeration(n)),
    }
}

fn of_structure(number: Option<u32>) -> Option<Base>
    ensures { result ≡ option_map base.Structure number }
{
    match number {
        None => None,
        Some(n) => Some(Base::Structure(n)),
    }
}

/// The type that a sort with a name is; none for `void`, and where it is no type.
pub fn sort_type<P: ProgramFacts>(
    program: &P,
    name: &[u16],
    sort: Sort,
) -> Result<Option<Base>, OutOfMemory>
    ensures { IfOk result (λ b. b ≡ sort_type (P.program program.now) name.now sort) }
{
    match sort {
        Sort::Void | Sort::Unknown => Ok(None),
        Sort::Simple(s) => Ok(Some(Base::Simple(s))),
        Sort::Enumeration => Ok(of_enumeration(enumeration_number(program, name)?)),
        Sort::Structure => Ok(of_structure(structure_number(program, name)?)),
    }
}

fn type_name(of: &TypeUse) -> &[u16]
    ensures { result.now ≡ type_name of.now }
{
    match of {
        TypeUse::Named { name, .. } => name.as_slice(),
    }
}

/// The type that is written; none for `void`, and where it is no type.
pub fn written<P: ProgramFacts>(program: &P, of: &TypeUse) -> Result<Option<Base>, OutOfMemory>
    ensures { IfOk result (λ b. b ≡ written (P.program program.now) of.now) }
{
    sort_type(program, type_name(of), program.type_sort(of))
}
