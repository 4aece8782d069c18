//! Constants of a program.
ghost use Rattle.std.specs.Prelude.{◌≡◌, ℕ, List, IfOk, OnOk};
ghost use Rattle.mql_names.specs.Maps.{meaning};
ghost use Rattle.mql_sizes.specs.Maps.{value_at};
ghost use Rattle.mql_sizes.specs.Members as spec;

use crate::member::MemberValue;
use fx8::{IntKind, OutOfMemory, Text};
use mql_constants::{ConstantScope, constant_of};
use mql_names::{Meanings, Sort, meaning_of, type_sort};
use mql_syntax::{TypeUse, Value};
use mql_walk::is_local;
use natives::{ConstantValue, SimpleType, constant_named};
use std::alloc::Global;
use std::collections::BTreeMap;

/// The values of members of enumerations, by name.
pub type Values<'a> = BTreeMap<&'a [u16], MemberValue>;

#[tactic(auto, unfolding(crate::specs::Maps::value_at))]
fn value_of(values: &Values<'_>, name: &[u16]) -> Option<i32>
    ensures { result ≡ value_at values.now name.now }
{
    match values.get(name) {
        Some(member) => Some(member.value),
        None => None,
    }
}

fn an_int(value: Option<i32>) -> Option<ConstantValue>
    ensures { result ≡ spec.an_int value }
{
    match value {
        Some(x) => Some(ConstantValue::Integer(IntKind::Int, x as i128)),
        None => None,
    }
}

#[tactic(auto, unfolding(crate::specs::Members::native_number))]
fn native_number(name: &[u16]) -> Option<ConstantValue>
    ensures { result ≡ spec.native_number name.now }
{
    match constant_named(name) {
        Some(constant) => Some(constant.value()),
        None => None,
    }
}

/// The number that a name of the program's own scope, or of the language, stands for.
pub fn global_number(
    names: &Meanings<'_>,
    values: &Values<'_>,
    name: &[u16],
) -> Option<ConstantValue>
    ensures { result ≡ spec.global_number (meaning names.now) (value_at values.now) name.now }
{
    match meaning_of(names, name) {
        Some(_) => an_int(value_of(values, name)),
        None => native_number(name),
    }
}

fn sort_number(sort: Sort) -> Option<SimpleType>
    ensures { result ≡ spec.sort_number sort }
{
    match sort {
        Sort::Simple(of) => Some(of),
        Sort::Enumeration => Some(SimpleType::Integer(IntKind::Int)),
        Sort::Void | Sort::Structure | Sort::Unknown => None,
    }
}

fn is_pointer(of: &TypeUse) -> bool
    ensures { result ≡ spec.is_pointer of.now }
{
    match of {
        TypeUse::Named { pointer, .. } => *pointer,
    }
}

/// The simple type that a written type stands for; an enumeration stands for `int`.
#[tactic(auto, unfolding(crate::specs::Members::simple_in))]
pub fn simple_in(names: &Meanings<'_>, of: &TypeUse) -> Option<SimpleType>
    ensures { result ≡ spec.simple_in (meaning names.now) of.now }
{
    if is_pointer(of) {
        None
    } else {
        sort_number(type_sort(names, of))
    }
}

/// What names and types mean at a place.
#[derive(Drop)]
struct Scope<'a, 'n, 'v> {
    names: &'a Meanings<'n>,
    values: &'a Values<'v>,
    locals: &'a [Text],
}

impl ConstantScope for Scope<'_, '_, '_> {
    ghost numbers = { λ s x. spec.number_in (meaning s.names.now) (value_at s.values.now) s.locals.now x };

    ghost types = { λ s t. spec.simple_in (meaning s.names.now) t };

    #[tactic(auto, unfolding(crate::specs::Members::number_in))]
    fn number(&self, name: &[u16]) -> Option<ConstantValue> {
        let number = global_number(self.names, self.values, name)?;
        if is_local(self.locals, name) {
            None
        } else {
            Some(number)
        }
    }

    fn simple_type(&self, of: &TypeUse) -> Option<SimpleType> {
        simple_in(self.names, of)
    }
}

/// The constant that a value is where these locals are in force, if it is one.
#[tactic(auto, unfolding(crate::specs::Members::constant_in))]
pub fn constant_in<'a, 'n, 'v>(
    alloc: Global,
    names: &'a Meanings<'n>,
    values: &'a Values<'v>,
    locals: &'a [Text],
    v: &Value,
) -> Result<Option<ConstantValue>, OutOfMemory>
    ensures { IfOk result (λ found. found ≡
        spec.constant_in (meaning names.now) (value_at values.now) locals.now v.now) }
{
    let scope = Scope {
        names,
        values,
        locals,
    };
    constant_of(alloc, &scope, v)
}
