//! Reading variables.
ghost use Rattle.std.specs.Prelude.{◌≡◌, None, map, option_map, IfOk};
ghost use Rattle.mql_views.specs.Seen.{part_seen, maybe_seen, seen, all, type_seen, start_seen, variable_seen, variables_seen};
ghost use Rattle.mql_syntax.specs.Leaves.{name};
ghost use Rattle.mql_syntax.specs.Lists.{each, maybe, pieces};
ghost use Rattle.mql_syntax.specs.Reads.{Reads};
ghost use Rattle.mql_syntax.specs.Seen.{at_site};
ghost use Rattle.mql_syntax.specs.Variables as variables;

use crate::declaration::{Dimension, Start, Variable, Words};
use crate::kind::Place;
use crate::leaf::name as text_of;
use crate::lists::pieces;
use crate::read_types::type_use;
use crate::read_values::{items, value, values_in};
use crate::unread::Unread;
use fx8::{ItemList, OutOfMemory, Text};
use mql_grammar::Class;
use mql_tree::{Span, Token};
use mql_views::{Part, Typed, Variables, is_token, read_variable};
use std::alloc::Global;

/// Where declarations and statements are read: tokens with their classes, how deep nodes go in one another at
/// most, and the place.
#[derive(Clone, Copy)]
pub struct Site<'a> {
    pub tokens: &'a [(Token, Span)],
    pub classes: &'a [Class],
    pub depth: u32,
    pub place: Place,
}

fn has(class: Class, parts: &[Part]) -> bool
    ensures { result ≡ variables.has class (seen parts.now) }
{
    for part in parts {
        if is_token(&[class], *part) {
            return true;
        }
    }
    false
}

/// The words among parts.
pub fn words_among(parts: &[Part]) -> Words
    ensures { result ≡ variables.words_among (seen parts.now) }
{
    Words {
        is_input: has(Class::Input, parts),
        is_static_input: has(Class::StaticInput, parts),
        is_static: has(Class::Static, parts),
        is_const: has(Class::Const, parts),
        is_virtual: has(Class::Virtual, parts),
    }
}

/// The sizes of dimensions, which stand with their brackets.
fn sizes<'a>(
    alloc: Global,
    parts: &'a [Part<'a>],
) -> Result<ItemList<Option<Part<'a>>>, OutOfMemory>
    ensures { IfOk result (λ found. map maybe_seen found ≡ variables.sizes_from None (seen parts.now)) }
{
    let mut found = ItemList::new(alloc);
    let mut size = None;
    for part in parts {
        if is_token(&[Class::OpenBracket], *part) {
            size = None;
        } else if is_token(&[Class::CloseBracket], *part) {
            found.push(size)?;
            size = None;
        } else {
            size = Some(*part);
        }
    }
    Ok(found)
}

fn dimension(alloc: Global, site: Site, size: Option<Part>) -> Result<Dimension, Unread>
    ensures { Reads result (at_site variables.dimension site.entry (maybe_seen size.entry)) }
{
    match size {
        None => Ok(Dimension::Open),
        Some(part) => {
            let size = value(
                alloc,
                site.tokens,
                site.classes,
                site.depth,
                site.place,
                part,
            )?;
            Ok(Dimension::Size(size))
        }
    }
}

fn dimensions(
    alloc: Global,
    site: Site,
    sizes: &[Option<Part>],
) -> Result<ItemList<Dimension>, Unread>
    ensures { Reads result
        (each (at_site variables.dimension site.entry) (map maybe_seen sizes.now)) }
{
    let mut found = ItemList::new(alloc);
    for size in sizes {
        found.push(dimension(alloc, site, *size)?)?;
    }
    Ok(found)
}

#[tactic(auto, unfolding(crate::specs::Variables::start))]
fn start(alloc: Global, site: Site, start: mql_views::Start) -> Result<Start, Unread>
    ensures { Reads result (at_site variables.start site.entry (start_seen start.entry)) }
{
    match start {
        mql_views::Start::Zero => Ok(Start::Zero),
        mql_views::Start::Value(part) => {
            let value = value(
                alloc,
                site.tokens,
                site.classes,
                site.depth,
                site.place,
                part,
            )?;
            Ok(Start::Value(value))
        }
        mql_views::Start::Arguments(parts) => {
            let parts = items(ItemList::new(alloc), parts)?;
            let values = values_in(
                alloc,
                site.tokens,
                site.classes,
                site.depth,
                site.place,
                parts.as_slice(),
            )?;
            Ok(Start::Arguments(values))
        }
    }
}

/// The name of a class, where there is one.
pub fn scope_name(
    alloc: Global,
    tokens: &[(Token, Span)],
    scope: Option<Part>,
) -> Result<Option<Text>, Unread>
    ensures { Reads result (maybe (name tokens.now) (maybe_seen scope.entry)) }
{
    match scope {
        None => Ok(None),
        Some(part) => Ok(Some(text_of(alloc, tokens, part)?)),
    }
}

/// Reads a variable of a type.
#[tactic(auto, unfolding(crate::specs::Variables::variable_of))]
pub fn variable_of(
    alloc: Global,
    site: Site,
    words: Words,
    typed: Typed,
    scope: Option<Part>,
    name: Part,
    dimensions: &[Part],
    begin: mql_views::Start,
) -> Result<Variable, Unread>
    ensures { Reads result (at_site variables.variable_of site.entry words (type_seen typed.entry)
        (maybe_seen scope.entry) (part_seen name.entry) (seen dimensions.now) (start_seen begin.entry)) }
{
    let scope = scope_name(alloc, site.tokens, scope)?;
    let name = text_of(alloc, site.tokens, name)?;
    let of = type_use(
        alloc,
        site.tokens,
        site.classes,
        site.depth,
        site.place,
        typed,
    )?;
    let sizes = sizes(alloc, dimensions)?;
    let dimensions = self::dimensions(alloc, site, sizes.as_slice())?;
    let start = start(alloc, site, begin)?;
    Ok(Variable {
        place: site.place,
        words,
        of,
        scope,
        name,
        dimensions,
        start,
    })
}

/// Reads a variable of a declaration.
#[tactic(auto, unfolding(crate::specs::Variables::variable))]
fn variable(
    alloc: Global,
    site: Site,
    words: Words,
    of: Part,
    parts: &[Part],
) -> Result<Variable, Unread>
    ensures { Reads result
        (at_site variables.variable site.entry words (part_seen of.entry) (seen parts.now)) }
{
    match read_variable(parts) {
        None => Err(Unread::Nothing),
        Some(found) => {
            let typed = Typed {
                name: of,
                pointer: found.pointer,
            };
            variable_of(
                alloc,
                site,
                words,
                typed,
                found.scope,
                found.name,
                found.dimensions,
                found.start,
            )
        }
    }
}

/// Reads the variables of the pieces of a declaration.
fn variables_of(
    alloc: Global,
    site: Site,
    words: Words,
    of: Part,
    pieces: &[&[Part]],
) -> Result<ItemList<Variable>, Unread>
    ensures { Reads result
        (each (at_site variables.variable site.entry words (part_seen of.entry)) (map all pieces.now)) }
{
    let mut found = ItemList::new(alloc);
    for piece in pieces {
        found.push(variable(alloc, site, words, of, piece)?)?;
    }
    Ok(found)
}

/// Reads the variables of a declaration.
#[tactic(auto, unfolding(crate::specs::Variables::variables))]
pub fn variables(alloc: Global, site: Site, found: Variables) -> Result<ItemList<Variable>, Unread>
    ensures { Reads result (at_site variables.variables site.entry (variables_seen found.entry)) }
{
    let words = words_among(found.words);
    let pieces = pieces(alloc, found.items)?;
    variables_of(alloc, site, words, found.of, pieces.as_slice())
}
