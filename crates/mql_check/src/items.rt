//! Enumerations, structures and functions that are only announced.
ghost use Rattle.std.specs.Prelude.{◌≡◌, IfOk};
ghost use Rattle.std.specs.List.{flat_map};
ghost use Rattle.mql_check.specs.Items.{value_broken, enumerator_broken, enumerator_used, enumeration_broken, member_broken, class_broken, member_used, announced_broken, announced_used, item_broken, item_used};

use crate::outside::{dimensions_broken, found_outside, sizes_used};
use crate::owned::{Owned, together, with_owner};
use crate::params::{constant_rule, params_broken, params_used};
use fx8::{ItemList, OutOfMemory};
use mql_expressions::{innermost, with_rule};
use mql_names::{Broken, is_defined};
use mql_scope::ProgramFacts;
use mql_syntax::{Class, Enumeration, Enumerator, Function, Item, Member, Place, Value};
use std::alloc::Global;

/// What is broken in the value of a member of an enumeration at a place.
fn value_broken<P: ProgramFacts>(
    alloc: Global,
    program: &P,
    place: Place,
    v: &Value,
) -> Result<ItemList<Broken>, OutOfMemory>
    ensures { IfOk result (λ bs. bs ≡ value_broken (P.program program.now) place v.now) }
{
    let found = found_outside(alloc, program, v)?;
    let rule = constant_rule(alloc, program, v)?;
    let all = with_rule(found.broken, place, rule)?;
    innermost(alloc, place, all)
}

fn enumerator_broken<P: ProgramFacts>(
    alloc: Global,
    program: &P,
    place: Place,
    enumerator: &Enumerator,
) -> Result<ItemList<Broken>, OutOfMemory>
    ensures { IfOk result (λ bs. bs ≡ enumerator_broken (P.program program.now) place enumerator.now) }
{
    match &enumerator.value {
        None => Ok(ItemList::new(alloc)),
        Some(v) => value_broken(alloc, program, place, v),
    }
}

fn enumerator_used<P: ProgramFacts>(
    alloc: Global,
    program: &P,
    enumerator: &Enumerator,
) -> Result<ItemList<u32>, OutOfMemory>
    ensures { IfOk result (λ ns. ns ≡ enumerator_used (P.program program.now) enumerator.now) }
{
    match &enumerator.value {
        None => Ok(ItemList::new(alloc)),
        Some(v) => {
            let found = found_outside(alloc, program, v)?;
            Ok(found.used)
        }
    }
}

fn enumerators_broken<P: ProgramFacts>(
    alloc: Global,
    program: &P,
    place: Place,
    enumerators: &[Enumerator],
) -> Result<ItemList<Broken>, OutOfMemory>
    ensures { IfOk result (λ bs. bs ≡
        flat_map (enumerator_broken (P.program program.now) place) enumerators.now) }
{
    let mut all = ItemList::new(alloc);
    let mut rest = enumerators;
    while let [enumerator, others @ ..] = rest {
        let more = enumerator_broken(alloc, program, place, enumerator)?;
        all.append(more)?;
        rest = others;
    }
    Ok(all)
}

fn enumerators_used<P: ProgramFacts>(
    alloc: Global,
    program: &P,
    enumerators: &[Enumerator],
) -> Result<ItemList<u32>, OutOfMemory>
    ensures { IfOk result (λ ns. ns ≡ flat_map (enumerator_used (P.program program.now)) enumerators.now) }
{
    let mut all = ItemList::new(alloc);
    let mut rest = enumerators;
    while let [enumerator, others @ ..] = rest {
        let more = enumerator_used(alloc, program, enumerator)?;
        all.append(more)?;
        rest = others;
    }
    Ok(all)
}

fn enumeration_broken<P: ProgramFacts>(
    alloc: Global,
    program: &P,
    e: &Enumeration,
) -> Result<ItemList<Broken>, OutOfMemory>
    ensures { IfOk result (λ bs. bs ≡ enumeration_broken (P.program program.now) e.now) }
{
    let all = enumerators_broken(alloc, program, e.place, e.values.as_slice())?;
    innermost(alloc, e.place, all)
}

fn member_broken<P: ProgramFacts>(
    alloc: Global,
    program: &P,
    member: &Member,
) -> Result<ItemList<Owned>, OutOfMemory>
    ensures { IfOk result (λ os. os ≡ member_broken (P.program program.now) member.now) }
{
    match member {
        Member::Variable(_, v) => {
            let all = dimensions_broken(alloc, program, v)?;
            with_owner(alloc, v.place, all)
        }
        Member::Function(_, _) => Ok(ItemList::new(alloc)),
    }
}

fn members_broken<P: ProgramFacts>(
    alloc: Global,
    program: &P,
    members: &[Member],
) -> Result<ItemList<Owned>, OutOfMemory>
    ensures { IfOk result (λ os. os ≡ flat_map (member_broken (P.program program.now)) members.now) }
{
    let mut all = ItemList::new(alloc);
    let mut rest = members;
    while let [member, others @ ..] = rest {
        let more = member_broken(alloc, program, member)?;
        all.append(more)?;
        rest = others;
    }
    Ok(all)
}

fn class_broken<P: ProgramFacts>(
    alloc: Global,
    program: &P,
    c: &Class,
) -> Result<ItemList<Broken>, OutOfMemory>
    ensures { IfOk result (λ bs. bs ≡ class_broken (P.program program.now) c.now) }
{
    let all = members_broken(alloc, program, c.members.as_slice())?;
    together(alloc, all.as_slice())
}

fn member_used<P: ProgramFacts>(
    alloc: Global,
    program: &P,
    member: &Member,
) -> Result<ItemList<u32>, OutOfMemory>
    ensures { IfOk result (λ ns. ns ≡ member_used (P.program program.now) member.now) }
{
    match member {
        Member::Variable(_, v) => sizes_used(alloc, program, v),
        Member::Function(_, f) => params_used(alloc, program, f.params.as_slice()),
    }
}

fn members_used<P: ProgramFacts>(
    alloc: Global,
    program: &P,
    members: &[Member],
) -> Result<ItemList<u32>, OutOfMemory>
    ensures { IfOk result (λ ns. ns ≡ flat_map (member_used (P.program program.now)) members.now) }
{
    let mut all = ItemList::new(alloc);
    let mut rest = members;
    while let [member, others @ ..] = rest {
        let more = member_used(alloc, program, member)?;
        all.append(more)?;
        rest = others;
    }
    Ok(all)
}

/// What is broken in a function, if it is only announced.
fn announced_broken<P: ProgramFacts>(
    alloc: Global,
    program: &P,
    f: &Function,
) -> Result<ItemList<Broken>, OutOfMemory>
    ensures { IfOk result (λ bs. bs ≡ announced_broken (P.program program.now) f.now) }
{
    if is_defined(&f.body) {
        return Ok(ItemList::new(alloc));
    }
    let all = params_broken(alloc, program, f.params.as_slice())?;
    innermost(alloc, f.place, all)
}

fn announced_used<P: ProgramFacts>(
    alloc: Global,
    program: &P,
    f: &Function,
) -> Result<ItemList<u32>, OutOfMemory>
    ensures { IfOk result (λ ns. ns ≡ announced_used (P.program program.now) f.now) }
{
    if is_defined(&f.body) {
        return Ok(ItemList::new(alloc));
    }
    params_used(alloc, program, f.params.as_slice())
}

fn item_broken<P: ProgramFacts>(
    alloc: Global,
    program: &P,
    item: &Item,
) -> Result<ItemList<Broken>, OutOfMemory>
    ensures { IfOk result (λ bs. bs ≡ item_broken (P.program program.now) item.now) }
{
    match item {
        Item::Enumeration(e) => enumeration_broken(alloc, program, e),
        Item::Class(c) => class_broken(alloc, program, c),
        Item::Function(f) => announced_broken(alloc, program, f),
        Item::Group(_) | Item::Variable(_) => Ok(ItemList::new(alloc)),
    }
}

/// What is broken in the enumerations, the structures and the announced functions of a program.
pub(crate) fn items_broken<P: ProgramFacts>(
    alloc: Global,
    program: &P,
    items: &[Item],
) -> Result<ItemList<Broken>, OutOfMemory>
    ensures { IfOk result (λ bs. bs ≡ flat_map (item_broken (P.program program.now)) items.now) }
{
    let mut all = ItemList::new(alloc);
    let mut rest = items;
    while let [item, others @ ..] = rest {
        let more = item_broken(alloc, program, item)?;
        all.append(more)?;
        rest = others;
    }
    Ok(all)
}

fn item_used<P: ProgramFacts>(
    alloc: Global,
    program: &P,
    item: &Item,
) -> Result<ItemList<u32>, OutOfMemory>
    ensures { IfOk result (λ ns. ns ≡ item_used (P.program program.now) item.now) }
{
    match item {
        Item::Enumeration(e) => enumerators_used(alloc, program, e.values.as_slice()),
        Item::Class(c) => members_used(alloc, program, c.members.as_slice()),
        Item::Function(f) => announced_used(alloc, program, f),
        Item::Group(_) | Item::Variable(_) => Ok(ItemList::new(alloc)),
    }
}

/// The functions that enumerations, structures and announced functions call.
pub(crate) fn items_used<P: ProgramFacts>(
    alloc: Global,
    program: &P,
    items: &[Item],
) -> Result<ItemList<u32>, OutOfMemory>
    ensures { IfOk result (λ ns. ns ≡ flat_map (item_used (P.program program.now)) items.now) }
{
    let mut all = ItemList::new(alloc);
    let mut rest = items;
    while let [item, others @ ..] = rest {
        let more = item_used(alloc, program, item)?;
        all.append(more)?;
        rest = others;
    }
    Ok(all)
}
