//! The rules on parents.
ghost use Rattle.std.specs.Prelude.{◌≡◌, IfOk};
ghost use Rattle.std.specs.List.{flat_map};
ghost use Rattle.mql_names.specs.Maps.{meaning};
ghost use Rattle.mql_names.specs.Faults.{told};
ghost use Rattle.mql_names.specs.Scopes.{is_among};
ghost use Rattle.mql_parents.specs.Maps.{parent_at};
ghost use Rattle.mql_parents.specs.Parents as spec;

use crate::known::{Parents, parent_of, parents_of};
use fx8::OutOfMemory;
use mql_names::{Broken, Meanings, Sort, break_if, is_unknown, sooner, type_sort};
use mql_syntax::{Class, Item, Parent, Syntax};
use std::alloc::Global;

/// Whether a structure of a name is its own ancestor, among so many ancestors.
fn is_own_ancestor(parents: &Parents<'_>, most: usize, name: &[u16]) -> bool
    ensures { result ≡ is_among name.now (spec.ancestors (parent_at parents.now) most name.now) }
{
    let mut left = most;
    let mut at = name;
    while left > 0 {
        match parent_of(parents, at) {
            None => return false,
            Some(parent) => {
                if parent == name {
                    return true;
                }
                at = parent;
            }
        }
        left -= 1;
    }
    false
}

/// Whether a type is one and no structure.
fn is_other_kind(sort: Sort) -> bool
    ensures { result ≡ spec.is_other_kind sort }
{
    match sort {
        Sort::Structure | Sort::Unknown => false,
        Sort::Void | Sort::Simple(_) | Sort::Enumeration => true,
    }
}

/// What is told of a structure with its parent.
#[tactic(auto, using(crate::proofs::Joined::of_three))]
fn parent_told(
    names: &Meanings<'_>,
    parents: &Parents<'_>,
    most: usize,
    c: &Class,
    parent: &Parent,
) -> Option<Broken>
    ensures { result ≡ told
        (spec.at_parent (meaning names.now) (parent_at parents.now) most c.now parent.now) }
{
    let sort = type_sort(names, &parent.of);
    let unknown = break_if(is_unknown(sort), 3, c.place);
    let own = is_own_ancestor(parents, most, c.name.as_slice());
    let ancestor = break_if(own, 4, c.place);
    let kind = break_if(is_other_kind(sort), 5, c.place);
    sooner(unknown, sooner(ancestor, kind))
}

fn class_told(names: &Meanings<'_>, parents: &Parents<'_>, most: usize, c: &Class) -> Option<Broken>
    ensures { result ≡ told
        (spec.at_class (meaning names.now) (parent_at parents.now) most c.now c.now.parent) }
{
    match &c.parent {
        None => None,
        Some(parent) => parent_told(names, parents, most, c, parent),
    }
}

fn item_told(
    names: &Meanings<'_>,
    parents: &Parents<'_>,
    most: usize,
    item: &Item,
) -> Option<Broken>
    ensures { result ≡ told (spec.at_item (meaning names.now) (parent_at parents.now) most item.now) }
{
    match item {
        Item::Class(c) => class_told(names, parents, most, c),
        Item::Group(_) | Item::Variable(_) | Item::Function(_) | Item::Enumeration(_) => None,
    }
}

fn items_told(
    names: &Meanings<'_>,
    parents: &Parents<'_>,
    most: usize,
    items: &[Item],
) -> Option<Broken>
    ensures { result ≡ told
        (flat_map (spec.at_item (meaning names.now) (parent_at parents.now) most) items.now) }
{
    let mut told: Option<Broken> = None;
    for item in items {
        told = sooner(told, item_told(names, parents, most, item));
    }
    told
}

/// What is told of the parents of a program's structures, where names mean this: an unknown parent (rule 3),
/// a structure that is its own ancestor (4), a parent of another kind (5).
pub fn parents_told(
    alloc: Global,
    names: &Meanings<'_>,
    syntax: &Syntax,
) -> Result<Option<Broken>, OutOfMemory>
    ensures { IfOk result (λ b. b ≡ told (spec.breaks_parents (meaning names.now) syntax.now)) }
{
    let items = syntax.items.as_slice();
    let parents = parents_of(alloc, items)?;
    Ok(items_told(names, &parents, items.len(), items))
}
