//! The parents of structures, by name.
ghost use Rattle.std.specs.Prelude.{◌≡◌, ◌++◌, List, IfOk};
ghost use Rattle.std.specs.List.{flat_map};
ghost use Rattle.std.specs.Option.{option_copied};
ghost use Rattle.mql_parents.specs.Maps.{parent_at, Holds};
ghost use Rattle.mql_parents.specs.Parents.{Derived};
ghost use Rattle.mql_parents.specs.Parents as spec;

use fx8::OutOfMemory;
use mql_names::type_name;
use mql_syntax::{Class, Item};
use std::alloc::Global;
use std::collections::BTreeMap;

/// The name of the parent of each structure that has one, by the structure's name.
pub(crate) type Parents<'a> = BTreeMap<&'a [u16], &'a [u16]>;

#[tactic(auto, unfolding(crate::specs::Maps::parent_at))]
pub(crate) fn parent_of<'a>(parents: &Parents<'a>, name: &[u16]) -> Option<&'a [u16]>
    ensures { option_copied result ≡ parent_at parents.now name.now }
{
    match parents.get(name) {
        Some(parent) => Some(*parent),
        None => None,
    }
}

/// Parents with that of a class.
fn with_class<'a>(mut parents: Parents<'a>, c: &'a Class) -> Result<Parents<'a>, OutOfMemory>
    ensures { IfOk result (λ new. (ds : List Derived) → Holds parents.entry ds →
        Holds new (ds ++ spec.derived c.now c.now.parent)) }
{
    match &c.parent {
        None => Ok(parents),
        Some(one) => {
            parents.insert(c.name.as_slice(), type_name(&one.of))?;
            Ok(parents)
        }
    }
}

fn with_item<'a>(parents: Parents<'a>, item: &'a Item) -> Result<Parents<'a>, OutOfMemory>
    ensures { IfOk result (λ new. (ds : List Derived) → Holds parents.entry ds →
        Holds new (ds ++ spec.item_derived item.now)) }
{
    match item {
        Item::Class(c) => with_class(parents, c),
        Item::Group(_) => Ok(parents),
        Item::Variable(_) => Ok(parents),
        Item::Function(_) => Ok(parents),
        Item::Enumeration(_) => Ok(parents),
    }
}

/// The parents of the structures of a program, by name.
pub(crate) fn parents_of(alloc: Global, items: &[Item]) -> Result<Parents<'_>, OutOfMemory>
    ensures { IfOk result (λ new. Holds new (flat_map spec.item_derived items.now)) }
{
    let mut parents: Parents<'_> = BTreeMap::new(alloc);
    for item in items {
        parents = with_item(parents, item)?;
    }
    Ok(parents)
}
