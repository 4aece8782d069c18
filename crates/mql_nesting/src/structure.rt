//! Structures, and the types of their parts.
ghost use Rattle.std.specs.Prelude.{◌≡◌, ◌++◌, IfOk};
ghost use Rattle.std.specs.List.{flat_map};
ghost use Rattle.mql_nesting.specs.Nesting as spec;

use fx8::{ItemList, OutOfMemory, Text};
use mql_names::type_name;
use mql_syntax::{Class, Item, Member, Parent, Place};
use std::alloc::Global;

/// A structure that is defined, with the names of the types of its parts: its parent and its fields.
#[derive(Drop)]
pub(crate) struct Structure {
    pub place: Place,
    pub name: Text,
    pub parts: ItemList<Text>,
}

fn parent_types(alloc: Global, parent: &Option<Parent>) -> Result<ItemList<Text>, OutOfMemory>
    ensures { IfOk result (λ found. found ≡ spec.parent_types parent.now) }
{
    let mut found = ItemList::new(alloc);
    match parent {
        None => Ok(found),
        Some(one) => {
            found.push(Text::from_slice(alloc, type_name(&one.of))?)?;
            Ok(found)
        }
    }
}

fn with_field(
    alloc: Global,
    mut found: ItemList<Text>,
    m: &Member,
) -> Result<ItemList<Text>, OutOfMemory>
    ensures { IfOk result (λ new. new ≡ found ++ spec.field_types m.now) }
{
    match m {
        Member::Variable(_, v) => {
            found.push(Text::from_slice(alloc, type_name(&v.of))?)?;
            Ok(found)
        }
        Member::Function(..) => Ok(found),
    }
}

fn with_fields(
    alloc: Global,
    mut found: ItemList<Text>,
    members: &[Member],
) -> Result<ItemList<Text>, OutOfMemory>
    ensures { IfOk result (λ new. new ≡ found ++ flat_map spec.field_types members.now) }
{
    for m in members {
        found = with_field(alloc, found, m)?;
    }
    Ok(found)
}

fn part_types(alloc: Global, c: &Class) -> Result<ItemList<Text>, OutOfMemory>
    ensures { IfOk result (λ found. found ≡ spec.part_types c.now) }
{
    let parent = parent_types(alloc, &c.parent)?;
    with_fields(alloc, parent, c.members.as_slice())
}

#[tactic(auto, unfolding(crate::specs::Nesting::structure_of))]
fn structure_of(alloc: Global, c: &Class) -> Result<Structure, OutOfMemory>
    ensures { IfOk result (λ s. s ≡ spec.structure_of c.now) }
{
    let name = Text::from_slice(alloc, c.name.as_slice())?;
    let parts = part_types(alloc, c)?;
    Ok(Structure {
        place: c.place,
        name,
        parts,
    })
}

fn with_class(
    alloc: Global,
    mut found: ItemList<Structure>,
    c: &Class,
) -> Result<ItemList<Structure>, OutOfMemory>
    ensures { IfOk result (λ new. new ≡ found ++ spec.class_structures c.now) }
{
    if c.defined {
        found.push(structure_of(alloc, c)?)?;
    }
    Ok(found)
}

fn with_item(
    alloc: Global,
    found: ItemList<Structure>,
    item: &Item,
) -> Result<ItemList<Structure>, OutOfMemory>
    ensures { IfOk result (λ new. new ≡ found ++ spec.item_structures item.now) }
{
    match item {
        Item::Class(c) => with_class(alloc, found, c),
        Item::Group(_) | Item::Variable(_) | Item::Function(_) | Item::Enumeration(_) => Ok(found),
    }
}

/// The structures that items define, in order.
pub(crate) fn structures_of(
    alloc: Global,
    items: &[Item],
) -> Result<ItemList<Structure>, OutOfMemory>
    ensures { IfOk result (λ found. found ≡ spec.structures_of items.now) }
{
    let mut found = ItemList::new(alloc);
    for item in items {
        found = with_item(alloc, found, item)?;
    }
    Ok(found)
}
