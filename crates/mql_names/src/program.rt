//! The program's own scope, and what is told of a program.
ghost use Rattle.std.specs.Prelude.{◌≡◌, List, ◌∷◌, [], ◌++◌, map, IfOk};
ghost use Rattle.std.specs.List.{flat_map};
ghost use Rattle.mql_names.specs.Maps.{meaning, Means};
ghost use Rattle.mql_names.specs.Meanings.{Meant, enumerator_meant, class_meanings, enumeration_meanings, item_meanings};
ghost use Rattle.mql_names.specs.Things.{plain_named, enumerator_named, class_named, enumeration_named, item_named, things_of};
ghost use Rattle.mql_names.specs.Things as thing;
ghost use Rattle.mql_names.specs.Rules.{told_of, first_broken};

use crate::fault::{Broken, sooner};
use crate::items::{function_named, items_told};
use crate::rules::program_told;
use crate::scope::Named;
use crate::types::{Meaning, Meanings};
use crate::walk::{scope_told, variable_named};
use fx8::{ItemList, OutOfMemory, Text};
use mql_syntax::{Class, Enumeration, Enumerator, Item, Place, Syntax};
use std::alloc::Global;
use std::collections::BTreeMap;

fn with_meaning<'a>(
    mut names: Meanings<'a>,
    name: &'a [u16],
    means: Meaning,
) -> Result<Meanings<'a>, OutOfMemory>
    ensures { IfOk result (λ new. (ms : List Meant) → Means names.entry ms →
        Means new (ms ++ (record { name = name.now; means = means }) ∷ [])) }
{
    names.insert(name, means)?;
    Ok(names)
}

fn with_class<'a>(names: Meanings<'a>, c: &'a Class) -> Result<Meanings<'a>, OutOfMemory>
    ensures { IfOk result (λ new. (ms : List Meant) → Means names.entry ms →
        Means new (ms ++ class_meanings c.now)) }
{
    if c.defined {
        with_meaning(names, c.name.as_slice(), Meaning::Structure)
    } else {
        Ok(names)
    }
}

fn with_enumerators<'a>(
    mut names: Meanings<'a>,
    enumerators: &'a [Enumerator],
) -> Result<Meanings<'a>, OutOfMemory>
    ensures { IfOk result (λ new. (ms : List Meant) → Means names.entry ms →
        Means new (ms ++ map enumerator_meant enumerators.now)) }
{
    for enumerator in enumerators {
        names = with_meaning(names, enumerator.name.as_slice(), Meaning::Member)?;
    }
    Ok(names)
}

fn with_enumeration<'a>(
    names: Meanings<'a>,
    e: &'a Enumeration,
) -> Result<Meanings<'a>, OutOfMemory>
    ensures { IfOk result (λ new. (ms : List Meant) → Means names.entry ms →
        Means new (ms ++ enumeration_meanings e.now)) }
{
    let names = with_meaning(names, e.name.as_slice(), Meaning::Enumeration)?;
    with_enumerators(names, e.values.as_slice())
}

fn with_item<'a>(names: Meanings<'a>, item: &'a Item) -> Result<Meanings<'a>, OutOfMemory>
    ensures { IfOk result (λ new. (ms : List Meant) → Means names.entry ms →
        Means new (ms ++ item_meanings item.now)) }
{
    match item {
        Item::Group(_) => Ok(names),
        Item::Variable(v) => with_meaning(names, v.name.as_slice(), Meaning::Other),
        Item::Function(f) => with_meaning(names, f.name.as_slice(), Meaning::Other),
        Item::Class(c) => with_class(names, c),
        Item::Enumeration(e) => with_enumeration(names, e),
    }
}

/// What the names of the program's own scope mean.
pub fn meanings_of(alloc: Global, items: &[Item]) -> Result<Meanings<'_>, OutOfMemory>
    ensures { IfOk result (λ new. Means new (flat_map item_meanings items.now)) }
{
    let mut names: Meanings<'_> = BTreeMap::new(alloc);
    for item in items {
        names = with_item(names, item)?;
    }
    Ok(names)
}

fn plain_named(alloc: Global, place: Place, name: &[u16]) -> Result<Named, OutOfMemory>
    ensures { IfOk result (λ named. named ≡ plain_named place name.now) }
{
    let name = Text::from_slice(alloc, name)?;
    Ok(Named {
        place,
        name,
        form: None,
    })
}

fn with_enumerator_names(
    alloc: Global,
    place: Place,
    mut named: ItemList<Named>,
    enumerators: &[Enumerator],
) -> Result<ItemList<Named>, OutOfMemory>
    ensures { IfOk result (λ new. new ≡ named ++ map (enumerator_named place) enumerators.now) }
{
    for enumerator in enumerators {
        named.push(plain_named(alloc, place, enumerator.name.as_slice())?)?;
    }
    Ok(named)
}

fn with_class_name(
    alloc: Global,
    mut named: ItemList<Named>,
    c: &Class,
) -> Result<ItemList<Named>, OutOfMemory>
    ensures { IfOk result (λ new. new ≡ named ++ class_named c.now) }
{
    if c.defined {
        named.push(plain_named(alloc, c.place, c.name.as_slice())?)?;
    }
    Ok(named)
}

fn with_enumeration_names(
    alloc: Global,
    mut named: ItemList<Named>,
    e: &Enumeration,
) -> Result<ItemList<Named>, OutOfMemory>
    ensures { IfOk result (λ new. new ≡ named ++ enumeration_named e.now) }
{
    named.push(plain_named(alloc, e.place, e.name.as_slice())?)?;
    with_enumerator_names(alloc, e.place, named, e.values.as_slice())
}

fn with_item_names(
    alloc: Global,
    names: &Meanings<'_>,
    mut named: ItemList<Named>,
    item: &Item,
) -> Result<ItemList<Named>, OutOfMemory>
    ensures { IfOk result (λ new. new ≡ named ++ item_named (meaning names.now) item.now) }
{
    match item {
        Item::Group(_) => Ok(named),
        Item::Variable(v) => {
            named.push(variable_named(alloc, v)?)?;
            Ok(named)
        }
        Item::Function(f) => {
            named.push(function_named(alloc, names, f)?)?;
            Ok(named)
        }
        Item::Class(c) => with_class_name(alloc, named, c),
        Item::Enumeration(e) => with_enumeration_names(alloc, named, e),
    }
}

/// The names of the program's own scope.
fn program_named(
    alloc: Global,
    names: &Meanings<'_>,
    items: &[Item],
) -> Result<ItemList<Named>, OutOfMemory>
    ensures { IfOk result (λ new. new ≡ flat_map (item_named (meaning names.now)) items.now) }
{
    let mut named = ItemList::new(alloc);
    for item in items {
        named = with_item_names(alloc, names, named, item)?;
    }
    Ok(named)
}

/// What is told of the program's own scope.
fn program_scope_told(
    alloc: Global,
    names: &Meanings<'_>,
    items: &[Item],
) -> Result<Option<Broken>, OutOfMemory>
    ensures { IfOk result (λ b. b ≡ told_of (meaning names.now)
        (thing.scope (flat_map (item_named (meaning names.now)) items.now) ∷ [])) }
{
    let named = program_named(alloc, names, items)?;
    scope_told(alloc, named.as_slice())
}

pub fn told_with(
    alloc: Global,
    names: &Meanings<'_>,
    syntax: &Syntax,
) -> Result<Option<Broken>, OutOfMemory>
    ensures { IfOk result (λ b. b ≡ told_of (meaning names.now) (things_of (meaning names.now) syntax.now)) }
{
    let scope = program_scope_told(alloc, names, syntax.items.as_slice())?;
    let items = items_told(alloc, names, syntax.items.as_slice())?;
    Ok(sooner(program_told(names, syntax), sooner(scope, items)))
}

/// The broken rule of a program's declarations that is told, if one is broken: that of the first node in the
/// order of tokens, and at it the lowest rule. It speaks of the rules that are built (`breaks`).
pub fn first_broken(alloc: Global, syntax: &Syntax) -> Result<Option<Broken>, OutOfMemory>
    ensures { IfOk result (λ b. b ≡ first_broken syntax.now) }
{
    let names = meanings_of(alloc, syntax.items.as_slice())?;
    told_with(alloc, &names, syntax)
}
