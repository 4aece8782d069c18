//! Structures with their fields.
ghost use Rattle.std.specs.Prelude.{◌≡◌, [], ◌∷◌, ◌++◌, map, IfOk, if◌then◌else◌};
ghost use Rattle.std.specs.List.{flat_map};
ghost use Rattle.std.specs.Option.{option_copied};
ghost use Rattle.mql_scope.specs.Contexts.{either};
ghost use Rattle.mql_program.specs.Programs.{supplied_layouts, is_public, field_with, field, own_fields, class_in, class_named, is_structure, structure_count, is_taken_publicly, inherited_field, inherited, layout_of, class_layout, layout_in, layouts};

use crate::supplied::{supplied_fields_named, supplied_layouts};
use fx8::{ItemList, OutOfMemory, Text};
use mql_names::type_name;
use mql_scope::{Field, Layout, ProgramFacts};
use mql_statements::variable_type;
use mql_syntax::{Access, Class, Item, Member, Parent, Variable};
use mql_types::DataType;
use std::alloc::Global;

fn is_public(access: Access) -> bool
    ensures { result ≡ is_public access }
{
    match access {
        Access::Public => true,
        Access::Protected | Access::Private => false,
    }
}

fn with_field(
    alloc: Global,
    mut fields: ItemList<Field>,
    access: Access,
    v: &Variable,
    of: Option<DataType>,
) -> Result<ItemList<Field>, OutOfMemory>
    ensures { IfOk result (λ new. new ≡ fields ++ field_with access v.now of) }
{
    match of {
        None => Ok(fields),
        Some(of) => {
            let name = Text::from_slice(alloc, v.name.as_slice())?;
            fields.push(Field {
                name,
                of,
                accessible: is_public(access),
            })?;
            Ok(fields)
        }
    }
}

fn with_member<P: ProgramFacts>(
    alloc: Global,
    program: &P,
    fields: ItemList<Field>,
    member: &Member,
) -> Result<ItemList<Field>, OutOfMemory>
    ensures { IfOk result (λ new. new ≡ fields ++ field (P.program program.now) member.now) }
{
    match member {
        Member::Variable(access, v) => {
            let of = variable_type(alloc, program, &[], v)?;
            with_field(alloc, fields, *access, v, of)
        }
        Member::Function(_, _) => Ok(fields),
    }
}

/// Fields, with those that a structure declares behind them.
fn with_own_fields<P: ProgramFacts>(
    alloc: Global,
    program: &P,
    mut fields: ItemList<Field>,
    c: &Class,
) -> Result<ItemList<Field>, OutOfMemory>
    ensures { IfOk result (λ new. new ≡ fields ++ own_fields (P.program program.now) c.now) }
{
    let members = c.members.as_slice();
    for member in members {
        fields = with_member(alloc, program, fields, member)?;
    }
    Ok(fields)
}

fn class_if<'a>(holds: bool, c: &'a Class) -> Option<&'a Class>
    ensures { option_copied result ≡ (if holds then Some c.now else None) }
{
    if holds { Some(c) } else { None }
}

fn class_in<'a>(name: &[u16], item: &'a Item) -> Option<&'a Class>
    ensures { option_copied result ≡ class_in name.now item.now }
{
    match item {
        Item::Class(c) => class_if(c.defined && c.name.as_slice() == name, c),
        Item::Group(_) | Item::Variable(_) | Item::Function(_) | Item::Enumeration(_) => None,
    }
}

fn either<'a>(a: Option<&'a Class>, b: Option<&'a Class>) -> Option<&'a Class>
    ensures { option_copied result ≡ either (option_copied a.entry) (option_copied b.entry) }
{
    match a {
        Some(c) => Some(c),
        None => b,
    }
}

/// The structure that a program defines of a name, the last one.
#[tactic(auto, using(crate::proofs::Parts::last_of_three, crate::proofs::Parts::either_none))]
fn class_named<'a>(name: &[u16], items: &'a [Item]) -> Option<&'a Class>
    ensures { option_copied result ≡ class_named name.now items.now }
{
    let mut hit = None;
    let mut rest = items;
    while let [item, others @ ..] = rest {
        hit = either(class_in(name, item), hit);
        rest = others;
    }
    hit
}

fn is_structure(item: &Item) -> bool
    ensures { result ≡ is_structure item.now }
{
    match item {
        Item::Class(c) => c.defined,
        Item::Group(_) | Item::Variable(_) | Item::Function(_) | Item::Enumeration(_) => false,
    }
}

/// How many structures a program defines.
fn structure_count(items: &[Item]) -> usize
    ensures { result ≡ structure_count items.now }
{
    let mut count = 0;
    let mut rest = items;
    while let [item, others @ ..] = rest {
        if is_structure(item) {
            count += 1;
        }
        rest = others;
    }
    count
}

fn is_taken_publicly(access: Option<Access>) -> bool
    ensures { result ≡ is_taken_publicly access }
{
    match access {
        None => true,
        Some(a) => is_public(a),
    }
}

fn inherited_field(alloc: Global, access: Option<Access>, f: &Field) -> Result<Field, OutOfMemory>
    ensures { IfOk result (λ r. r ≡ inherited_field access f.now) }
{
    let name = Text::from_slice(alloc, f.name.as_slice())?;
    Ok(Field {
        name,
        of: f.of,
        accessible: f.accessible && is_taken_publicly(access),
    })
}

#[tactic(auto, using(crate::proofs::Parts::map_more))]
fn all_inherited(
    alloc: Global,
    access: Option<Access>,
    fields: &[Field],
) -> Result<ItemList<Field>, OutOfMemory>
    ensures { IfOk result (λ fs. fs ≡ map (inherited_field access) fields.now) }
{
    let mut taken = ItemList::new(alloc);
    for f in fields {
        taken.push(inherited_field(alloc, access, f)?)?;
    }
    Ok(taken)
}

/// The fields that a structure has of its parent, through so many parents.
#[tactic(auto, using(crate::proofs::Fields::inherited_zero, crate::proofs::Fields::inherited_none, crate::proofs::Fields::inherited_supplied, crate::proofs::Fields::inherited_own))]
fn inherited<P: ProgramFacts>(
    alloc: Global,
    program: &P,
    items: &[Item],
    most: usize,
    parent: &Option<Parent>,
) -> Result<ItemList<Field>, OutOfMemory>
    ensures { IfOk result (λ fs. fs ≡ inherited (P.program program.now) items.now most parent.now) }
{
    if most == 0 {
        return Ok(ItemList::new(alloc));
    }
    match parent {
        None => Ok(ItemList::new(alloc)),
        Some(q) => {
            let name = type_name(&q.of);
            match class_named(name, items) {
                None => {
                    let fields = supplied_fields_named(alloc, name)?;
                    all_inherited(alloc, q.access, fields.as_slice())
                }
                Some(c) => {
                    let before = inherited(alloc, program, items, most - 1, &c.parent)?;
                    let fields = with_own_fields(alloc, program, before, c)?;
                    all_inherited(alloc, q.access, fields.as_slice())
                }
            }
        }
    }
}

fn layout_of<P: ProgramFacts>(
    alloc: Global,
    program: &P,
    items: &[Item],
    most: usize,
    c: &Class,
) -> Result<Layout, OutOfMemory>
    ensures { IfOk result (λ l. l ≡ layout_of (P.program program.now) items.now most c.now) }
{
    let before = inherited(alloc, program, items, most, &c.parent)?;
    let fields = with_own_fields(alloc, program, before, c)?;
    let name = Text::from_slice(alloc, c.name.as_slice())?;
    Ok(Layout { name, fields })
}

fn with_class<P: ProgramFacts>(
    alloc: Global,
    program: &P,
    items: &[Item],
    most: usize,
    mut layouts: ItemList<Layout>,
    c: &Class,
) -> Result<ItemList<Layout>, OutOfMemory>
    ensures { IfOk result (λ new. new ≡
        layouts ++ class_layout (P.program program.now) items.now most c.now) }
{
    if c.defined {
        layouts.push(layout_of(alloc, program, items, most, c)?)?;
    }
    Ok(layouts)
}

fn with_layout<P: ProgramFacts>(
    alloc: Global,
    program: &P,
    items: &[Item],
    most: usize,
    layouts: ItemList<Layout>,
    item: &Item,
) -> Result<ItemList<Layout>, OutOfMemory>
    ensures { IfOk result (λ new. new ≡
        layouts ++ layout_in (P.program program.now) items.now most item.now) }
{
    match item {
        Item::Class(c) => with_class(alloc, program, items, most, layouts, c),
        Item::Group(_) => Ok(layouts),
        Item::Variable(_) => Ok(layouts),
        Item::Function(_) => Ok(layouts),
        Item::Enumeration(_) => Ok(layouts),
    }
}

fn with_layouts<P: ProgramFacts>(
    alloc: Global,
    program: &P,
    items: &[Item],
    most: usize,
    mut layouts: ItemList<Layout>,
) -> Result<ItemList<Layout>, OutOfMemory>
    ensures { IfOk result (λ new. new ≡
        layouts ++ flat_map (layout_in (P.program program.now) items.now most) items.now) }
{
    for item in items {
        layouts = with_layout(alloc, program, items, most, layouts, item)?;
    }
    Ok(layouts)
}

/// The structures of a program with their fields, the supplied ones first.
pub(crate) fn structures_of<P: ProgramFacts>(
    alloc: Global,
    program: &P,
    items: &[Item],
) -> Result<ItemList<Layout>, OutOfMemory>
    ensures { IfOk result (λ ls. ls ≡ supplied_layouts ++ layouts (P.program program.now) items.now) }
{
    let supplied = supplied_layouts(alloc)?;
    with_layouts(alloc, program, items, structure_count(items), supplied)
}
