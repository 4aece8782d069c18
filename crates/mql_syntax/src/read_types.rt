//! Reading types where they are written.
ghost use Rattle.std.specs.Prelude.{◌≡◌, [], ◌∷◌, map, option_map};
ghost use Rattle.mql_views.specs.Seen.{part_seen, seen, all, type_seen};
ghost use Rattle.mql_views.specs.Declarations.{type_argument};
ghost use Rattle.mql_syntax.specs.Lists.{each, pieces};
ghost use Rattle.mql_syntax.specs.Reads.{Reads, Shows};
ghost use Rattle.mql_syntax.specs.Types.{generic_named, named, type_use};
ghost use Rattle.mql_syntax.specs.Seen.{types_seen, named_seen};

use crate::kind::Place;
use crate::leaf::{inner, name, place_of};
use crate::lists::pieces;
use crate::unread::Unread;
use crate::value::TypeUse;
use fx8::{ItemList, Text};
use mql_grammar::Class;
use mql_tree::{Span, Token, Tree};
use mql_views::{Part, Typed, read_generic, read_type_argument};
use std::alloc::Global;

/// The name of a type, and the arguments of a template.
#[derive(Drop)]
pub(crate) struct Named<'a> {
    pub(crate) name: Text,
    pub(crate) args: ItemList<Typed<'a>>,
}

/// The types that stand between commas.
fn arguments<'a>(alloc: Global, parts: &'a [Part<'a>]) -> Result<ItemList<Typed<'a>>, Unread>
    ensures { Shows types_seen result (each type_argument (pieces (seen parts.now))) }
{
    let pieces = pieces(alloc, parts)?;
    let mut found = ItemList::new(alloc);
    for piece in pieces.as_slice() {
        match read_type_argument(piece) {
            None => return Err(Unread::Nothing),
            Some(typed) => found.push(typed)?,
        }
    }
    Ok(found)
}

/// A template with its arguments.
#[tactic(auto, unfolding(crate::specs::Types::generic_named))]
pub(crate) fn generic_named<'a>(
    alloc: Global,
    tokens: &[(Token, Span)],
    parts: &'a [Part<'a>],
) -> Result<Named<'a>, Unread>
    ensures { Shows named_seen result (generic_named tokens.now (seen parts.now)) }
{
    let generic = match read_generic(parts) {
        None => return Err(Unread::Nothing),
        Some(generic) => generic,
    };
    let name = name(alloc, tokens, generic.callee)?;
    let args = arguments(alloc, generic.arguments)?;
    Ok(Named { name, args })
}

/// A name, or a template with its arguments, of the parts that it has.
#[tactic(auto, unfolding(crate::specs::Types::named))]
fn named_part<'a>(
    alloc: Global,
    tokens: &[(Token, Span)],
    part: Part<'a>,
    parts: &'a [Part<'a>],
) -> Result<Named<'a>, Unread>
    ensures { Shows named_seen result (named tokens.now (part_seen part.entry) (seen parts.now)) }
{
    match part.tree {
        Tree::Leaf { .. } => {
            let name = name(alloc, tokens, part)?;
            let args = ItemList::new(alloc);
            Ok(Named { name, args })
        }
        Tree::Node { .. } => generic_named(alloc, tokens, parts),
    }
}

/// Reads a type that stands at a node, where nodes go in one another at most as deep as the number says.
#[cycle(types)]
pub fn type_use(
    alloc: Global,
    tokens: &[(Token, Span)],
    classes: &[Class],
    depth: u32,
    inside: Place,
    typed: Typed,
) -> Result<TypeUse, Unread>
    ensures { Reads result (type_use tokens.now classes.now depth inside (type_seen typed.entry)) }
{
    let depth = match depth.checked_sub(1) {
        None => return Err(Unread::Nothing),
        Some(depth) => depth,
    };
    let place = place_of(inside, typed.name);
    let parts = inner(alloc, classes, typed.name)?;
    let named = named_part(alloc, tokens, typed.name, parts.as_slice())?;
    let args = type_uses(alloc, tokens, classes, depth, place, named.args.as_slice())?;
    Ok(TypeUse::Named {
        place,
        name: named.name,
        pointer: typed.pointer,
        args,
    })
}

/// Reads types that stand at a node.
#[cycle(types)]
pub(crate) fn type_uses(
    alloc: Global,
    tokens: &[(Token, Span)],
    classes: &[Class],
    depth: u32,
    inside: Place,
    types: &[Typed],
) -> Result<ItemList<TypeUse>, Unread>
    ensures { Reads result
        (each (type_use tokens.now classes.now depth inside) (types_seen types.now)) }
{
    let mut found = ItemList::new(alloc);
    for typed in types {
        found.push(type_use(alloc, tokens, classes, depth, inside, *typed)?)?;
    }
    Ok(found)
}
