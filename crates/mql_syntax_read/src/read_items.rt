//! Reading the items of a program, and the program.
ghost use Rattle.std.specs.Prelude.{◌≡◌, [], ◌∷◌, map, option_map, IfOk};
ghost use Rattle.mql_grammar.specs.declared.token_class.Class.TheVariants as token_class;
ghost use Rattle.mql_views.specs.Seen.{part_seen, maybe_seen, seen, all, enumerator_seen, enumeration_seen, declaration_seen, item_seen, templated_seen, template_seen};
ghost use Rattle.mql_syntax.specs.Lists.{each, maybe, pieces};
ghost use Rattle.mql_syntax.specs.Reads.{Reads};
ghost use Rattle.mql_syntax.specs.Seen.{at_site};
ghost use Rattle.mql_syntax.specs.Values.{value};
ghost use Rattle.mql_syntax.specs.declared.declaration.Item.TheVariants as made_item;
ghost use Rattle.mql_syntax_read.specs.Classes.{gathered};
ghost use Rattle.mql_syntax_read.specs.Items as program_items;

use crate::read_classes::class_of;
use crate::read_functions::{function, type_names, value_at};
use fx8::{ItemList, OutOfMemory, Stack, Text};
use mql_forms::Form;
use mql_grammar::Class;
use mql_syntax::{
    Enumeration, Enumerator, Item, Place, Site, Syntax, Unread, Value, Variable, first, inner,
    name as text_of, nodes, part, pieces, place_of, token, variables, without,
};
use mql_tree::{Span, Token, Tree};
use mql_views::{
    Declaration, Part, Template, Templated, is_node, read_class, read_enumeration, read_enumerator,
    read_item, read_template,
};
use std::alloc::Global;

/// Reads the text of a string.
#[tactic(auto, unfolding(crate::specs::Items::text))]
fn text(alloc: Global, tokens: &[(Token, Span)], part: Part) -> Result<Text, Unread>
    ensures { Reads result (program_items.text tokens.now (part_seen part.entry)) }
{
    match token(tokens, part) {
        Some(Token::Str(text)) => Ok(Text::from_slice(alloc, text.as_slice())?),
        _ => Err(Unread::Nothing),
    }
}

/// Reads a value, where there is one.
fn value_of(alloc: Global, site: Site, part: Option<Part>) -> Result<Option<Value>, Unread>
    ensures { Reads result (maybe (at_site value site.entry) (maybe_seen part.entry)) }
{
    match part {
        None => Ok(None),
        Some(part) => Ok(Some(value_at(alloc, site, part)?)),
    }
}

/// Reads a member of an enumeration.
#[tactic(auto, unfolding(crate::specs::Items::enumerator))]
fn enumerator(alloc: Global, site: Site, parts: &[Part]) -> Result<Enumerator, Unread>
    ensures { Reads result (at_site program_items.enumerator site.entry (seen parts.now)) }
{
    match read_enumerator(parts) {
        None => Err(Unread::Nothing),
        Some(found) => {
            let name = text_of(alloc, site.tokens, found.name)?;
            let value = value_of(alloc, site, found.value)?;
            Ok(Enumerator { name, value })
        }
    }
}

/// Reads the members of an enumeration that pieces are.
fn enumerators(
    alloc: Global,
    site: Site,
    pieces: &[&[Part]],
) -> Result<ItemList<Enumerator>, Unread>
    ensures { Reads result
        (each (at_site program_items.enumerator site.entry) (map all pieces.now)) }
{
    let mut found = ItemList::new(alloc);
    for piece in pieces {
        found.push(enumerator(alloc, site, piece)?)?;
    }
    Ok(found)
}

/// Reads an enumeration.
#[tactic(auto, unfolding(crate::specs::Items::enumeration))]
fn enumeration(
    alloc: Global,
    site: Site,
    found: mql_views::Enumeration,
) -> Result<Enumeration, Unread>
    ensures { Reads result (at_site program_items.enumeration site.entry (enumeration_seen found.entry)) }
{
    let name = text_of(alloc, site.tokens, found.name)?;
    let pieces = pieces(alloc, found.values)?;
    let values = enumerators(alloc, site, pieces.as_slice())?;
    Ok(Enumeration {
        place: site.place,
        name,
        values,
    })
}

/// Variables as items.
fn variable_items(alloc: Global, found: ItemList<Variable>) -> Result<ItemList<Item>, OutOfMemory>
    ensures { IfOk result (λ made. made ≡ map made_item.Variable found) }
{
    let mut made = ItemList::new(alloc);
    let mut left = Stack::of_list(found);
    while let Some(variable) = left.pop() {
        made.push(Item::Variable(variable))?;
    }
    Ok(made)
}

/// One item.
fn alone(alloc: Global, item: Item) -> Result<ItemList<Item>, OutOfMemory>
    ensures { IfOk result (λ made. made ≡ program_items.alone item) }
{
    let mut made = ItemList::new(alloc);
    made.push(item)?;
    Ok(made)
}

/// Reads the items that a declaration is.
#[tactic(auto, unfolding(crate::specs::Items::declared))]
fn declared(
    alloc: Global,
    site: Site,
    nodes: u32,
    found: Declaration,
) -> Result<ItemList<Item>, Unread>
    ensures { Reads result (at_site program_items.declared site.entry nodes (declaration_seen found.entry)) }
{
    match found {
        Declaration::Variables(found) => {
            let found = variables(alloc, site, found)?;
            Ok(variable_items(alloc, found)?)
        }
        Declaration::Function(found) => {
            let found = function(alloc, site, nodes, ItemList::new(alloc), found)?;
            Ok(alone(alloc, Item::Function(found))?)
        }
    }
}

/// Reads `input group` with its text, or a declaration.
#[tactic(auto, unfolding(crate::specs::Items::item_of))]
fn item_of(
    alloc: Global,
    site: Site,
    nodes: u32,
    found: mql_views::Item,
) -> Result<ItemList<Item>, Unread>
    ensures { Reads result (at_site program_items.item_of site.entry nodes (item_seen found.entry)) }
{
    match found {
        mql_views::Item::Group(part) => {
            let text = text(alloc, site.tokens, part)?;
            Ok(alone(alloc, Item::Group(text))?)
        }
        mql_views::Item::Declares(found) => declared(alloc, site, nodes, found),
    }
}

/// Reads a class, of the parts that it has.
#[tactic(auto, unfolding(crate::specs::Items::class_item))]
fn class_item(
    alloc: Global,
    site: Site,
    nodes: u32,
    types: ItemList<Text>,
    parts: &[Part],
) -> Result<ItemList<Item>, Unread>
    ensures { Reads result
        (at_site program_items.class_item site.entry nodes types (seen parts.now)) }
{
    match read_class(parts) {
        None => Err(Unread::Nothing),
        Some(found) => {
            let class = class_of(alloc, site, nodes, types, found)?;
            Ok(alone(alloc, Item::Class(class))?)
        }
    }
}

/// Reads a template's class or function.
#[tactic(auto, unfolding(crate::specs::Items::templated))]
fn templated(
    alloc: Global,
    site: Site,
    nodes: u32,
    types: ItemList<Text>,
    found: Templated,
) -> Result<ItemList<Item>, Unread>
    ensures { Reads result
        (at_site program_items.templated site.entry nodes types (templated_seen found.entry)) }
{
    match found {
        Templated::Class(part) => {
            let parts = inner(alloc, site.classes, part)?;
            let at = Site {
                tokens: site.tokens,
                classes: site.classes,
                depth: site.depth,
                place: place_of(site.place, part),
            };
            class_item(alloc, at, nodes, types, parts.as_slice())
        }
        Templated::Function(found) => {
            let found = function(alloc, site, nodes, types, found)?;
            Ok(alone(alloc, Item::Function(found))?)
        }
    }
}

/// Reads a template.
#[tactic(auto, unfolding(crate::specs::Items::template_of))]
fn template_of(
    alloc: Global,
    site: Site,
    nodes: u32,
    found: Template,
) -> Result<ItemList<Item>, Unread>
    ensures { Reads result (at_site program_items.template_of site.entry nodes (template_seen found.entry)) }
{
    let types = type_names(alloc, site.tokens, found.params)?;
    templated(alloc, site, nodes, types, found.of)
}

/// Reads an enumeration, of the parts that it has.
#[tactic(auto, unfolding(crate::specs::Items::enumeration_item))]
fn enumeration_item(alloc: Global, site: Site, parts: &[Part]) -> Result<ItemList<Item>, Unread>
    ensures { Reads result (at_site program_items.enumeration_item site.entry (seen parts.now)) }
{
    match read_enumeration(parts) {
        None => Err(Unread::Nothing),
        Some(found) => {
            let found = enumeration(alloc, site, found)?;
            Ok(alone(alloc, Item::Enumeration(found))?)
        }
    }
}

/// Reads the items that a node of a form is, of the parts that it has.
#[tactic(auto, unfolding(crate::specs::Items::form_items))]
fn form_items(
    alloc: Global,
    site: Site,
    form: Form,
    nodes: u32,
    parts: &[Part],
) -> Result<ItemList<Item>, Unread>
    ensures { Reads result (at_site program_items.form_items site.entry form nodes (seen parts.now)) }
{
    match form {
        Form::Item => match read_item(parts) {
            None => Err(Unread::Nothing),
            Some(found) => item_of(alloc, site, nodes, found),
        },
        Form::Template => match read_template(parts) {
            None => Err(Unread::Nothing),
            Some(found) => template_of(alloc, site, nodes, found),
        },
        Form::Class => class_item(alloc, site, nodes, ItemList::new(alloc), parts),
        Form::Enumeration => enumeration_item(alloc, site, parts),
        _ => Err(Unread::Nothing),
    }
}

/// Reads the items that a part of a program is.
#[tactic(auto, unfolding(crate::specs::Items::item))]
fn item(alloc: Global, site: Site, part: Part) -> Result<ItemList<Item>, Unread>
    ensures { Reads result (at_site program_items.item site.entry (part_seen part.entry)) }
{
    match part.tree {
        Tree::Leaf { .. } => Err(Unread::Nothing),
        Tree::Node { form, parts: _ } => {
            let parts = inner(alloc, site.classes, part)?;
            let at = Site {
                tokens: site.tokens,
                classes: site.classes,
                depth: site.depth,
                place: place_of(site.place, part),
            };
            form_items(alloc, at, *form, nodes(part.tree), parts.as_slice())
        }
    }
}

/// Reads the items that parts of a program are.
fn items(alloc: Global, site: Site, parts: &[Part]) -> Result<ItemList<Item>, Unread>
    ensures { Reads result (gathered (at_site program_items.item site.entry) (seen parts.now)) }
{
    let mut found = ItemList::new(alloc);
    for part in parts {
        found.append(item(alloc, site, *part)?)?;
    }
    Ok(found)
}

/// Reads the program of a tree whose first node is a program's.
fn program_at(alloc: Global, site: Site, tree: &Tree) -> Result<Syntax, Unread>
    ensures { Reads result (at_site program_items.program_at site.entry tree.now) }
{
    let parts = inner(alloc, site.classes, part(site.classes, 0, 0, tree))?;
    let parts = without(ItemList::new(alloc), &[Class::Semicolon], parts.as_slice())?;
    let items = items(alloc, site, parts.as_slice())?;
    Ok(Syntax {
        place: site.place,
        nodes: nodes(tree),
        items,
    })
}

/// Reads the program of a tree, by its tokens and their classes, where types, values and statements go in one
/// another at most as deep as the number says. `Nothing` exactly where the tree is no program's, or one that
/// is too deep.
#[tactic(auto, unfolding(crate::specs::Items::program))]
pub fn read_program(
    alloc: Global,
    tokens: &[(Token, Span)],
    classes: &[Class],
    depth: u32,
    tree: &Tree,
) -> Result<Syntax, Unread>
    ensures { Reads result (program_items.program tokens.now classes.now depth tree.now) }
{
    if !is_node(&[Form::Program], part(classes, 0, 0, tree)) {
        return Err(Unread::Nothing);
    }
    let place = Place {
        at: 0,
        first: first(tree),
    };
    let site = Site {
        tokens,
        classes,
        depth,
        place,
    };
    program_at(alloc, site, tree)
}
