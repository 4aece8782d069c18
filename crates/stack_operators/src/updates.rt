//! Assignments: places that get values, and what they give (MQL5 Reference, Language Basics, Operations and
//! Expressions, Assignment Operations; Arithmetical Operations).
ghost use Rattle.std.specs.Prelude.{◌≡◌};
ghost use Rattle.mql_meaning.specs.Changes.{either};
ghost use Rattle.mql_meaning.specs.Operators as operators;
ghost use Rattle.store_cells.specs.Changes.{Does, Gives};
ghost use Rattle.stack_operators.specs.Steps.{bumped_from, counted, counts_by, keeps, renewed, stands_first, updated};

use crate::values::binary;
use fx8::{IntKind, IntOperator};
use mql_mean::Value;
use mql_meaning::{Bump, Place, Sort, Store};
use std::alloc::Global;
use store_cells::{End, Fault};
use store_places::{read, write};
use store_values::{convert, sort_of};

/// The operator of `++` and `--`.
fn counts_by(bump: Bump) -> IntOperator
    ensures { result ≡ counts_by bump }
{
    match bump {
        Bump::MoreFirst => IntOperator::Add,
        Bump::LessFirst => IntOperator::Subtract,
        Bump::MoreAfter => IntOperator::Add,
        Bump::LessAfter => IntOperator::Subtract,
    }
}

/// Whether `++` or `--` stands before its place.
fn stands_first(bump: Bump) -> bool
    ensures { result ≡ stands_first bump }
{
    match bump {
        Bump::MoreFirst => true,
        Bump::LessFirst => true,
        Bump::MoreAfter => false,
        Bump::LessAfter => false,
    }
}

/// The sort in which 1 is added: kinds smaller than `int` are taken as `int`.
fn bump_sort(sort: Sort) -> Sort
    ensures { result ≡ operators.bump_sort sort }
{
    match sort {
        Sort::Number(IntKind::Uint) => Sort::Number(IntKind::Uint),
        Sort::Number(IntKind::Long) => Sort::Number(IntKind::Long),
        Sort::Number(IntKind::Ulong) => Sort::Number(IntKind::Ulong),
        Sort::Number(IntKind::Datetime) => Sort::Number(IntKind::Datetime),
        Sort::Number(_) => Sort::Number(IntKind::Int),
        Sort::Double => Sort::Double,
        Sort::String => Sort::String,
        Sort::Pointer => Sort::Pointer,
    }
}

/// An old value with an operator and another one: both are taken into the sort, the result back.
fn renewed(
    alloc: Global,
    operator: IntOperator,
    sort: Sort,
    other: Value,
    old: Value,
    store: &Store,
) -> Result<Value, Fault>
    ensures { Gives (renewed operator sort other old) result store.now }
{
    let Some(own) = sort_of(&old) else {
        return Err(Fault::End(End::Stuck));
    };
    let old = convert(alloc, sort, old, store)?;
    let new = binary(operator, sort, old, other, store)?;
    convert(alloc, own, new, store)
}

/// An old value with 1 more or less.
fn counted(alloc: Global, operator: IntOperator, old: &Value, store: &Store) -> Result<Value, Fault>
    ensures { Gives (counted operator old.now) result store.now }
{
    let Some(own) = sort_of(old) else {
        return Err(Fault::End(End::Stuck));
    };
    let sort = bump_sort(own);
    let one = convert(alloc, sort, Value::Num(IntKind::Int, 1), store)?;
    let old = old.copy(alloc)?;
    renewed(alloc, operator, sort, one, old, store)
}

/// A place gets a value, and one is given.
fn keeps(
    alloc: Global,
    new: Value,
    given: Value,
    place: &Place,
    store: &mut Store,
) -> Result<Value, Fault>
    ensures { Does (keeps new given place.now) result store.old store.new }
{
    match write(alloc, new, place, store) {
        Ok(()) => Ok(given),
        Err(Fault::End(end)) => Err(Fault::End(end)),
        Err(Fault::OutOfMemory) => Err(Fault::OutOfMemory),
    }
}

/// A place gets a value, which is given.
pub fn keep(alloc: Global, value: Value, place: &Place, store: &mut Store) -> Result<Value, Fault>
    ensures { Does (keeps value value place.now) result store.old store.new }
{
    let given = value.copy(alloc)?;
    keeps(alloc, value, given, place, store)
}

/// A place gets its old value with an operator and another one, both taken into the sort, and the result taken
/// back; it gives the new value.
#[tactic(auto, using(crate::proofs::Updated::update_is))]
pub fn update(
    alloc: Global,
    operator: IntOperator,
    sort: Sort,
    other: Value,
    place: &Place,
    store: &mut Store,
) -> Result<Value, Fault>
    ensures { Does (updated operator sort other place.now) result store.old store.new }
{
    let old = read(alloc, place, store)?;
    let new = renewed(alloc, operator, sort, other, old, store)?;
    keep(alloc, new, place, store)
}

/// A place gets a new value, and the new one or the old one is given.
fn put_new(
    alloc: Global,
    gives_new: bool,
    new: Value,
    old: Value,
    place: &Place,
    store: &mut Store,
) -> Result<Value, Fault>
    ensures { Does (keeps new (either gives_new new old) place.now) result store.old store.new }
{
    if gives_new {
        keep(alloc, new, place, store)
    } else {
        keeps(alloc, new, old, place, store)
    }
}

/// A place whose old value is known gets 1 more or less.
fn bump_from(
    alloc: Global,
    bump: Bump,
    old: Value,
    place: &Place,
    store: &mut Store,
) -> Result<Value, Fault>
    ensures { Does (bumped_from bump old place.now) result store.old store.new }
{
    let new = counted(alloc, counts_by(bump), &old, store)?;
    put_new(alloc, stands_first(bump), new, old, place, store)
}

/// `++` and `--`: a place gets 1 more or less. Before their place they give its new value, behind it the old
/// one.
#[tactic(auto, using(crate::proofs::Updated::bump_fails))]
pub fn bump_at(alloc: Global, bump: Bump, place: &Place, store: &mut Store) -> Result<Value, Fault>
    ensures { Does (operators.bump_at bump place.now) result store.old store.new }
{
    let old = read(alloc, place, store)?;
    bump_from(alloc, bump, old, place, store)
}
