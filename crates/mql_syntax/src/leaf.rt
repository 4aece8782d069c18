//! Tokens, numbers and places of parts.
ghost use Rattle.std.specs.Prelude.{◌≡◌, [], ◌∷◌, map, MatchOption, IfOk, slice_get};
ghost use Rattle.std.specs.Option.{option_copied};
ghost use Rattle.mql_grammar.specs.Numbers.{class_number};
ghost use Rattle.mql_views.specs.Parts.{nodes, number_of, class_at, head_in, parts_from, parts_of};
ghost use Rattle.mql_views.specs.Seen.{part_seen, seen, head_seen};
ghost use Rattle.mql_syntax.specs.Leaves.{first, first_of, nodes_of, part_from, place_of, token_of, token, name, sign, inner};
ghost use Rattle.mql_syntax.specs.Reads.{Reads};

use crate::kind::Place;
use crate::unread::Unread;
use fx8::{ItemList, OutOfMemory, Text};
use mql_grammar::Class;
use mql_spelling::Sign;
use mql_tree::{Span, Token, Tree};
use mql_views::{Head, Part};
use std::alloc::Global;

/// The first of the items, and those behind it.
pub(crate) fn parted<T>(items: &[T]) -> Option<(&T, &[T])>
    ensures { MatchOption result (items.now ≡ []) (λ found. items.now ≡ found.0.now ∷ found.1.now) }
{
    items.split_first()
}

/// The place of the token that a tree begins with.
#[cycle(first)]
pub fn first(tree: &Tree) -> u32
    ensures { result ≡ first tree.now }
{
    match tree {
        Tree::Leaf { token } => *token,
        Tree::Node { form: _, parts } => first_of(parts.as_slice()),
    }
}

/// The place of the token that the first of trees begins with.
#[cycle(first)]
fn first_of(trees: &[Tree]) -> u32
    ensures { result ≡ first_of trees.now }
{
    match parted(trees) {
        None => 0,
        Some((tree, _)) => first(tree),
    }
}

/// The number of nodes of a tree, at most the largest number of 32 bits.
#[cycle(nodes)]
pub fn nodes(tree: &Tree) -> u32
    ensures { result ≡ nodes tree.now }
{
    match tree {
        Tree::Leaf { .. } => 0,
        Tree::Node { form: _, parts } => nodes_of(parts.as_slice()),
    }
}

#[cycle(nodes)]
fn nodes_of(trees: &[Tree]) -> u32
    ensures { result ≡ nodes_of 1 trees.now }
{
    let mut count: u32 = 1;
    for tree in trees {
        count = count.saturating_add(nodes(tree));
    }
    count
}

fn number_of(inside: u32, next: u32, tree: &Tree) -> u32
    ensures { result ≡ number_of inside next tree.now }
{
    match tree {
        Tree::Leaf { .. } => inside,
        Tree::Node { .. } => next,
    }
}

fn class_in(classes: &[Class], token: u32) -> Class
    ensures { class_number result ≡ class_at classes.now token }
{
    match classes.get(token as usize) {
        Some(class) => *class,
        None => Class::EndMark,
    }
}

fn head_in(classes: &[Class], tree: &Tree) -> Head
    ensures { head_seen result ≡ head_in classes.now tree.now }
{
    match tree {
        Tree::Leaf { token } => Head::Token(class_in(classes, *token)),
        Tree::Node { form, parts: _ } => Head::Node(*form),
    }
}

/// A tree as a part of the node of a number, where the next node has another number.
pub fn part<'a>(classes: &[Class], inside: u32, next: u32, tree: &'a Tree) -> Part<'a>
    ensures { part_seen result ≡ part_from classes.now inside next tree.now }
{
    Part {
        at: number_of(inside, next, tree),
        head: head_in(classes, tree),
        tree,
    }
}

/// Trees as the parts of the node of a number.
fn parts_of<'a>(
    alloc: Global,
    classes: &[Class],
    at: u32,
    trees: &'a [Tree],
) -> Result<ItemList<Part<'a>>, OutOfMemory>
    ensures { IfOk result (λ parts. seen parts ≡ parts_of classes.now at trees.now) }
{
    let mut found = ItemList::new(alloc);
    let mut next = at.saturating_add(1);
    for tree in trees {
        found.push(part(classes, at, next, tree))?;
        next = next.saturating_add(nodes(tree));
    }
    Ok(found)
}

/// The parts of a part that is a node.
#[tactic(auto, unfolding(crate::specs::Leaves::inner))]
pub fn inner<'a>(
    alloc: Global,
    classes: &[Class],
    part: Part<'a>,
) -> Result<ItemList<Part<'a>>, OutOfMemory>
    ensures { IfOk result (λ parts. seen parts ≡ inner classes.now (part_seen part.entry)) }
{
    match part.tree {
        Tree::Leaf { .. } => Ok(ItemList::new(alloc)),
        Tree::Node { form: _, parts } => parts_of(alloc, classes, part.at, parts.as_slice()),
    }
}

/// Where a part stands that is at a place: at its node, or at the node that it is a token of.
#[tactic(auto, unfolding(crate::specs::Leaves::place_of))]
pub fn place_of(inside: Place, part: Part) -> Place
    ensures { result ≡ place_of inside (part_seen part.entry) }
{
    match part.tree {
        Tree::Leaf { .. } => inside,
        Tree::Node { form: _, parts } => Place {
            at: part.at,
            first: first_of(parts.as_slice()),
        },
    }
}

/// The token at a place.
fn token_at(tokens: &[(Token, Span)], place: u32) -> Option<&Token>
    ensures { option_copied result ≡ token_of (slice_get tokens.now place) }
{
    match tokens.get(place as usize) {
        Some((token, _)) => Some(token),
        None => None,
    }
}

/// The token that a part is; a node is none.
#[tactic(auto, unfolding(crate::specs::Leaves::token))]
pub fn token<'a>(tokens: &'a [(Token, Span)], part: Part) -> Option<&'a Token>
    ensures { option_copied result ≡ token tokens.now (part_seen part.entry) }
{
    match part.tree {
        Tree::Leaf { token } => token_at(tokens, *token),
        Tree::Node { .. } => None,
    }
}

/// The name or reserved word that a part is.
#[tactic(auto, unfolding(crate::specs::Leaves::name))]
pub fn name_in<'a>(tokens: &'a [(Token, Span)], part: Part) -> Option<&'a [u16]>
    ensures { option_copied result ≡ name tokens.now (part_seen part.entry) }
{
    match token(tokens, part) {
        Some(Token::Name(name)) => Some(name.as_slice()),
        _ => None,
    }
}

/// Reads the name or reserved word that a part is.
pub fn name(alloc: Global, tokens: &[(Token, Span)], part: Part) -> Result<Text, Unread>
    ensures { Reads result (name tokens.now (part_seen part.entry)) }
{
    match name_in(tokens, part) {
        Some(name) => Ok(Text::from_slice(alloc, name)?),
        None => Err(Unread::Nothing),
    }
}

/// The sign that a part is.
#[tactic(auto, unfolding(crate::specs::Leaves::sign))]
pub(crate) fn sign(tokens: &[(Token, Span)], part: Part) -> Result<Sign, Unread>
    ensures { Reads result (sign tokens.now (part_seen part.entry)) }
{
    match token(tokens, part) {
        Some(Token::Sign(sign)) => Ok(*sign),
        _ => Err(Unread::Nothing),
    }
}
