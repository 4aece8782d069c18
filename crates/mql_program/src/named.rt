//! What the types of a program are called.
ghost use Rattle.std.specs.Prelude.{◌≡◌, [], ◌∷◌, ◌++◌, IfOk};
ghost use Rattle.std.specs.List.{flat_map};
ghost use Rattle.mql_program.specs.Programs.{supplied_layouts, named_layout, named_class, named_structure, named_enumeration};

use crate::supplied::supplied_layouts;
use fx8::{ItemList, OutOfMemory, Text};
use mql_scope::{Enumeration, Layout};
use mql_syntax::{Class, Enumeration as EnumerationSyntax, Item};
use std::alloc::Global;

fn named_layout(alloc: Global, name: &[u16]) -> Result<Layout, OutOfMemory>
    ensures { IfOk result (λ l. l ≡ named_layout name.now) }
{
    let name = Text::from_slice(alloc, name)?;
    Ok(Layout {
        name,
        fields: ItemList::new(alloc),
    })
}

fn with_named_class(
    alloc: Global,
    mut layouts: ItemList<Layout>,
    c: &Class,
) -> Result<ItemList<Layout>, OutOfMemory>
    ensures { IfOk result (λ new. new ≡ layouts ++ named_class c.now) }
{
    if c.defined {
        layouts.push(named_layout(alloc, c.name.as_slice())?)?;
    }
    Ok(layouts)
}

fn with_named_structure(
    alloc: Global,
    layouts: ItemList<Layout>,
    item: &Item,
) -> Result<ItemList<Layout>, OutOfMemory>
    ensures { IfOk result (λ new. new ≡ layouts ++ named_structure item.now) }
{
    match item {
        Item::Class(c) => with_named_class(alloc, layouts, c),
        Item::Group(_) => Ok(layouts),
        Item::Variable(_) => Ok(layouts),
        Item::Function(_) => Ok(layouts),
        Item::Enumeration(_) => Ok(layouts),
    }
}

fn with_named_structures(
    alloc: Global,
    mut layouts: ItemList<Layout>,
    items: &[Item],
) -> Result<ItemList<Layout>, OutOfMemory>
    ensures { IfOk result (λ new. new ≡ layouts ++ flat_map named_structure items.now) }
{
    for item in items {
        layouts = with_named_structure(alloc, layouts, item)?;
    }
    Ok(layouts)
}

/// The structures without the fields of the program's own.
pub(crate) fn named_structures(
    alloc: Global,
    items: &[Item],
) -> Result<ItemList<Layout>, OutOfMemory>
    ensures { IfOk result (λ ls. ls ≡ supplied_layouts ++ flat_map named_structure items.now) }
{
    let supplied = supplied_layouts(alloc)?;
    with_named_structures(alloc, supplied, items)
}

fn named_enumeration(alloc: Global, name: &[u16]) -> Result<Enumeration, OutOfMemory>
    ensures { IfOk result (λ e. e ≡ record { name = name.now; members = [] }) }
{
    let name = Text::from_slice(alloc, name)?;
    Ok(Enumeration {
        name,
        members: ItemList::new(alloc),
    })
}

fn with_one(
    alloc: Global,
    mut enumerations: ItemList<Enumeration>,
    e: &EnumerationSyntax,
) -> Result<ItemList<Enumeration>, OutOfMemory>
    ensures { IfOk result (λ new. new ≡ enumerations ++ (record { name = e.now.name; members = [] }) ∷ []) }
{
    enumerations.push(named_enumeration(alloc, e.name.as_slice())?)?;
    Ok(enumerations)
}

fn with_named_enumeration(
    alloc: Global,
    enumerations: ItemList<Enumeration>,
    item: &Item,
) -> Result<ItemList<Enumeration>, OutOfMemory>
    ensures { IfOk result (λ new. new ≡ enumerations ++ named_enumeration item.now) }
{
    match item {
        Item::Enumeration(e) => with_one(alloc, enumerations, e),
        Item::Group(_) => Ok(enumerations),
        Item::Variable(_) => Ok(enumerations),
        Item::Function(_) => Ok(enumerations),
        Item::Class(_) => Ok(enumerations),
    }
}

/// The enumerations without their members.
pub(crate) fn named_enumerations(
    alloc: Global,
    items: &[Item],
) -> Result<ItemList<Enumeration>, OutOfMemory>
    ensures { IfOk result (λ es. es ≡ flat_map named_enumeration items.now) }
{
    let mut enumerations = ItemList::new(alloc);
    for item in items {
        enumerations = with_named_enumeration(alloc, enumerations, item)?;
    }
    Ok(enumerations)
}
