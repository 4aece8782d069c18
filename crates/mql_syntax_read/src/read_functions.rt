//! Reading functions.
ghost use Rattle.std.specs.Prelude.{◌≡◌, None, map, option_map};
ghost use Rattle.mql_views.specs.Seen.{part_seen, maybe_seen, seen, all, type_seen, start_seen, body_seen, function_seen};
ghost use Rattle.mql_syntax.specs.Leaves.{name};
ghost use Rattle.mql_syntax.specs.Lists.{each, maybe, pieces};
ghost use Rattle.mql_syntax.specs.Reads.{Reads};
ghost use Rattle.mql_syntax.specs.Seen.{at_site};
ghost use Rattle.mql_syntax.specs.Types.{type_use};
ghost use Rattle.mql_syntax.specs.Values.{value};
ghost use Rattle.mql_syntax_read.specs.Functions as functions;

use crate::read_statements::statement;
use fx8::{ItemList, Text};
use mql_grammar::Class;
use mql_syntax::{
    Base, Body, Function, Param, Site, TypeUse, Unread, Value, Words, items, name as text_of,
    pieces, read_value, scope_name, type_use, values_in, variable_of, without, words_among,
};
use mql_tree::{Span, Token};
use mql_views::{Part, Start, Typed, parted, read_call, read_param};
use std::alloc::Global;

/// Reads a value at a site.
pub(crate) fn value_at(alloc: Global, site: Site, part: Part) -> Result<Value, Unread>
    ensures { Reads result (at_site value site.entry (part_seen part.entry)) }
{
    match read_value(
        alloc,
        site.tokens,
        site.classes,
        site.depth,
        site.place,
        part,
    )? {
        Some(value) => Ok(value),
        None => Err(Unread::Nothing),
    }
}

/// Reads names.
fn names(alloc: Global, tokens: &[(Token, Span)], parts: &[Part]) -> Result<ItemList<Text>, Unread>
    ensures { Reads result (each (name tokens.now) (seen parts.now)) }
{
    let mut found = ItemList::new(alloc);
    for part in parts {
        found.push(text_of(alloc, tokens, *part)?)?;
    }
    Ok(found)
}

/// Reads the parameters of a template, as they stand between `<` and `>`.
#[tactic(auto, unfolding(crate::specs::Functions::type_names))]
pub(crate) fn type_names(
    alloc: Global,
    tokens: &[(Token, Span)],
    parts: &[Part],
) -> Result<ItemList<Text>, Unread>
    ensures { Reads result (functions.type_names tokens.now (seen parts.now)) }
{
    let parts = without(
        ItemList::new(alloc),
        &[Class::Comma, Class::Typename],
        parts,
    )?;
    names(alloc, tokens, parts.as_slice())
}

/// Whether one part stands between the parentheses of a function.
fn is_single(parts: &[Part]) -> bool
    ensures { result ≡ functions.single (seen parts.now) }
{
    match parted(parts) {
        None => false,
        Some((_, rest)) => match parted(rest) {
            None => true,
            Some(_) => false,
        },
    }
}

fn param_words(constant: bool) -> Words
    ensures { result ≡ functions.param_words constant }
{
    Words {
        is_input: false,
        is_static_input: false,
        is_static: false,
        is_const: constant,
        is_virtual: false,
    }
}

fn preset_start<'a>(preset: Option<Part<'a>>) -> Start<'a>
    ensures { start_seen result ≡ functions.preset_start (maybe_seen preset.entry) }
{
    match preset {
        None => Start::Zero,
        Some(value) => Start::Value(value),
    }
}

/// Reads a parameter.
#[tactic(auto, unfolding(crate::specs::Functions::param))]
fn param(alloc: Global, site: Site, parts: &[Part]) -> Result<Param, Unread>
    ensures { Reads result (at_site functions.param site.entry (seen parts.now)) }
{
    match read_param(parts) {
        None => Err(Unread::Nothing),
        Some(found) => {
            let words = param_words(found.constant);
            let start = preset_start(found.preset);
            let variable = variable_of(
                alloc,
                site,
                words,
                found.typed,
                None,
                found.name,
                found.dimensions,
                start,
            )?;
            Ok(Param {
                reference: found.reference,
                variable,
            })
        }
    }
}

/// Reads the parameters that pieces are.
fn params(alloc: Global, site: Site, pieces: &[&[Part]]) -> Result<ItemList<Param>, Unread>
    ensures { Reads result (each (at_site functions.param site.entry) (map all pieces.now)) }
{
    let mut found = ItemList::new(alloc);
    for piece in pieces {
        found.push(param(alloc, site, piece)?)?;
    }
    Ok(found)
}

/// Reads the parameters between the parentheses of a function.
fn params_of(alloc: Global, site: Site, parts: &[Part]) -> Result<ItemList<Param>, Unread>
    ensures { Reads result (at_site functions.params_of site.entry (seen parts.now)) }
{
    if is_single(parts) {
        return Ok(ItemList::new(alloc));
    }
    let pieces = pieces(alloc, parts)?;
    params(alloc, site, pieces.as_slice())
}

/// Reads the constructor of a parent or a member.
#[tactic(auto, unfolding(crate::specs::Functions::base))]
fn base(alloc: Global, site: Site, parts: &[Part]) -> Result<Base, Unread>
    ensures { Reads result (at_site functions.base site.entry (seen parts.now)) }
{
    match read_call(parts) {
        None => Err(Unread::Nothing),
        Some(call) => {
            let name = text_of(alloc, site.tokens, call.callee)?;
            let parts = items(ItemList::new(alloc), call.arguments)?;
            let arguments = values_in(
                alloc,
                site.tokens,
                site.classes,
                site.depth,
                site.place,
                parts.as_slice(),
            )?;
            Ok(Base { name, arguments })
        }
    }
}

/// Reads the constructors that pieces are.
fn bases(alloc: Global, site: Site, pieces: &[&[Part]]) -> Result<ItemList<Base>, Unread>
    ensures { Reads result (each (at_site functions.base site.entry) (map all pieces.now)) }
{
    let mut found = ItemList::new(alloc);
    for piece in pieces {
        found.push(base(alloc, site, piece)?)?;
    }
    Ok(found)
}

/// Reads the constructors of parents and members, which stand with their commas.
fn bases_of(alloc: Global, site: Site, parts: &[Part]) -> Result<ItemList<Base>, Unread>
    ensures { Reads result (each (at_site functions.base site.entry) (pieces (seen parts.now))) }
{
    let pieces = pieces(alloc, parts)?;
    bases(alloc, site, pieces.as_slice())
}

/// Reads what a function has behind its head.
#[tactic(auto, unfolding(crate::specs::Functions::body))]
fn body(alloc: Global, site: Site, found: mql_views::Body) -> Result<Body, Unread>
    ensures { Reads result (at_site functions.body site.entry (body_seen found.entry)) }
{
    match found {
        mql_views::Body::Block(part) => {
            let block = statement(
                alloc,
                site.tokens,
                site.classes,
                site.depth,
                site.place,
                part,
            )?;
            Ok(Body::Block(block))
        }
        mql_views::Body::Declared => Ok(Body::Declared),
        mql_views::Body::Pure => Ok(Body::Pure),
    }
}

/// Reads the type of a function's result, where there is one.
fn result_of(alloc: Global, site: Site, typed: Option<Typed>) -> Result<Option<TypeUse>, Unread>
    ensures { Reads result (maybe (at_site type_use site.entry) (option_map type_seen typed.entry)) }
{
    match typed {
        None => Ok(None),
        Some(typed) => {
            let of = type_use(
                alloc,
                site.tokens,
                site.classes,
                site.depth,
                site.place,
                typed,
            )?;
            Ok(Some(of))
        }
    }
}

/// Reads a function of a number of nodes, with the parameters that are types.
#[tactic(auto, unfolding(crate::specs::Functions::function))]
pub(crate) fn function(
    alloc: Global,
    site: Site,
    nodes: u32,
    types: ItemList<Text>,
    found: mql_views::Function,
) -> Result<Function, Unread>
    ensures { Reads result
        (at_site functions.function site.entry nodes types (function_seen found.entry)) }
{
    let result = result_of(alloc, site, found.result)?;
    let scope = scope_name(alloc, site.tokens, found.scope)?;
    let name = text_of(alloc, site.tokens, found.name)?;
    let params = params_of(alloc, site, found.params)?;
    let bases = bases_of(alloc, site, found.bases)?;
    let body = body(alloc, site, found.body)?;
    Ok(Function {
        place: site.place,
        nodes,
        types,
        words: words_among(found.words),
        result,
        scope,
        destructor: found.destructor,
        name,
        params,
        bases,
        overrides: found.overrides,
        body,
    })
}
