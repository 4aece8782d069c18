//! Reading classes, structures and interfaces.
ghost use Rattle.std.specs.Prelude.{◌≡◌, ◌∷◌, [], map, option_map, IfOk};
ghost use Rattle.mql_views.specs.Seen.{part_seen, maybe_seen, seen, all, parent_seen, class_seen, declaration_seen};
ghost use Rattle.mql_syntax.specs.Lists.{maybe};
ghost use Rattle.mql_syntax.specs.Reads.{Reads, Shows};
ghost use Rattle.mql_syntax.specs.Seen.{at_site};
ghost use Rattle.mql_syntax.specs.declared.declaration.Member.TheVariants as members;
ghost use Rattle.mql_syntax_read.specs.Classes as classes;
ghost use Rattle.mql_syntax_read.specs.Seen.{accessed_seen};

use crate::read_functions::{function, type_names};
use fx8::{ItemList, OutOfMemory, Stack, Text};
use mql_grammar::Class as TokenClass;
use mql_spelling::{ReservedWord, reserved_word};
use mql_syntax::{
    Access, Class, ClassKind, Function, Member, Parent, Site, Unread, Variable, inner,
    name as text_of, name_in, nodes, place_of, type_use, variables,
};
use mql_tree::{Span, Token};
use mql_views::{ClassParts, Declaration, Part, Typed, is_token, read_member};
use std::alloc::Global;

#[tactic(auto, unfolding(crate::specs::Classes::access_of))]
fn access_of(word: ReservedWord) -> Result<Access, Unread>
    ensures { Reads result (classes.access_of word) }
{
    match word {
        ReservedWord::Public => Ok(Access::Public),
        ReservedWord::Protected => Ok(Access::Protected),
        ReservedWord::Private => Ok(Access::Private),
        _ => Err(Unread::Nothing),
    }
}

#[tactic(auto, unfolding(crate::specs::Classes::kind_of))]
fn kind_of(word: ReservedWord) -> Result<ClassKind, Unread>
    ensures { Reads result (classes.kind_of word) }
{
    match word {
        ReservedWord::Class => Ok(ClassKind::Class),
        ReservedWord::Struct => Ok(ClassKind::Struct),
        ReservedWord::Interface => Ok(ClassKind::Interface),
        _ => Err(Unread::Nothing),
    }
}

/// Where members are accessible before the first access word.
fn first_access(kind: ClassKind) -> Access
    ensures { result ≡ classes.first_access kind }
{
    match kind {
        ClassKind::Class => Access::Private,
        ClassKind::Struct => Access::Public,
        ClassKind::Interface => Access::Public,
    }
}

/// What an access word says.
#[tactic(auto, unfolding(crate::specs::Classes::access))]
fn access(tokens: &[(Token, Span)], part: Part) -> Result<Access, Unread>
    ensures { Reads result (classes.access tokens.now (part_seen part.entry)) }
{
    match name_in(tokens, part) {
        None => Err(Unread::Nothing),
        Some(name) => match reserved_word(name) {
            None => Err(Unread::Nothing),
            Some(word) => access_of(word),
        },
    }
}

/// What a class is by its first word.
#[tactic(auto, unfolding(crate::specs::Classes::kind))]
fn kind(tokens: &[(Token, Span)], part: Part) -> Result<ClassKind, Unread>
    ensures { Reads result (classes.kind tokens.now (part_seen part.entry)) }
{
    match name_in(tokens, part) {
        None => Err(Unread::Nothing),
        Some(name) => match reserved_word(name) {
            None => Err(Unread::Nothing),
            Some(word) => kind_of(word),
        },
    }
}

/// The members among the parts in a class's braces, each with where it is accessible.
fn accessed<'a>(
    alloc: Global,
    tokens: &[(Token, Span)],
    first: Access,
    parts: &'a [Part<'a>],
) -> Result<ItemList<(Access, Part<'a>)>, Unread>
    ensures { Shows accessed_seen result (classes.accessed tokens.now first (seen parts.now)) }
{
    let mut found = ItemList::new(alloc);
    let mut now = first;
    for part in parts {
        if is_token(&[TokenClass::Access], *part) {
            now = access(tokens, *part)?;
        } else if !is_token(&[TokenClass::Colon], *part) {
            found.push((now, *part))?;
        }
    }
    Ok(found)
}

/// Variables as members.
fn fields(
    alloc: Global,
    access: Access,
    found: ItemList<Variable>,
) -> Result<ItemList<Member>, OutOfMemory>
    ensures { IfOk result (λ made. made ≡ map (members.Variable access) found) }
{
    let mut made = ItemList::new(alloc);
    let mut left = Stack::of_list(found);
    while let Some(variable) = left.pop() {
        made.push(Member::Variable(access, variable))?;
    }
    Ok(made)
}

/// One member alone.
fn method(alloc: Global, access: Access, found: Function) -> Result<ItemList<Member>, OutOfMemory>
    ensures { IfOk result (λ made. made ≡ members.Function access found ∷ []) }
{
    let mut made = ItemList::new(alloc);
    made.push(Member::Function(access, found))?;
    Ok(made)
}

/// Reads the members that a member's declaration is.
#[tactic(auto, unfolding(crate::specs::Classes::declared))]
fn declared(
    alloc: Global,
    site: Site,
    access: Access,
    nodes: u32,
    params: &[Part],
    found: Declaration,
) -> Result<ItemList<Member>, Unread>
    ensures { Reads result (at_site classes.declared site.entry access nodes (seen params.now)
        (declaration_seen found.entry)) }
{
    match found {
        Declaration::Variables(found) => {
            let found = variables(alloc, site, found)?;
            Ok(fields(alloc, access, found)?)
        }
        Declaration::Function(found) => {
            let types = type_names(alloc, site.tokens, params)?;
            let found = function(alloc, site, nodes, types, found)?;
            Ok(method(alloc, access, found)?)
        }
    }
}

/// What the access word before a parent says, where there is one.
fn taken(tokens: &[(Token, Span)], word: Option<Part>) -> Result<Option<Access>, Unread>
    ensures { Reads result (maybe (classes.access tokens.now) (maybe_seen word.entry)) }
{
    match word {
        None => Ok(None),
        Some(word) => Ok(Some(access(tokens, word)?)),
    }
}

/// Reads the parent of a class.
#[tactic(auto, unfolding(crate::specs::Classes::parent))]
fn parent(alloc: Global, site: Site, found: mql_views::Parent) -> Result<Parent, Unread>
    ensures { Reads result (at_site classes.parent site.entry (parent_seen found.entry)) }
{
    let access = taken(site.tokens, found.access)?;
    let typed = Typed {
        name: found.of,
        pointer: false,
    };
    let of = type_use(
        alloc,
        site.tokens,
        site.classes,
        site.depth,
        site.place,
        typed,
    )?;
    Ok(Parent { access, of })
}

/// Reads the parent of a class, where it has one.
fn parent_of(
    alloc: Global,
    site: Site,
    found: Option<mql_views::Parent>,
) -> Result<Option<Parent>, Unread>
    ensures { Reads result
        (maybe (at_site classes.parent site.entry) (option_map parent_seen found.entry)) }
{
    match found {
        None => Ok(None),
        Some(found) => Ok(Some(parent(alloc, site, found)?)),
    }
}

/// Reads a member that is a part of a class at the site.
#[tactic(auto, unfolding(crate::specs::Classes::member))]
fn member(alloc: Global, site: Site, access: Access, part: Part) -> Result<ItemList<Member>, Unread>
    ensures { Reads result (at_site classes.member site.entry (access, part_seen part.entry)) }
{
    let parts = inner(alloc, site.classes, part)?;
    match read_member(parts.as_slice()) {
        None => Err(Unread::Nothing),
        Some(found) => {
            let at = Site {
                tokens: site.tokens,
                classes: site.classes,
                depth: site.depth,
                place: place_of(site.place, part),
            };
            declared(
                alloc,
                at,
                access,
                nodes(part.tree),
                found.params,
                found.declares,
            )
        }
    }
}

/// Reads members.
fn members(alloc: Global, site: Site, parts: &[(Access, Part)]) -> Result<ItemList<Member>, Unread>
    ensures { Reads result
        (classes.gathered (at_site classes.member site.entry) (accessed_seen parts.now)) }
{
    let mut found = ItemList::new(alloc);
    for part in parts {
        found.append(member(alloc, site, part.0, part.1)?)?;
    }
    Ok(found)
}

/// Reads the members of a class of a kind; one that is only announced has none.
#[tactic(auto, unfolding(crate::specs::Classes::members_of))]
fn members_of<'a>(
    alloc: Global,
    site: Site,
    kind: ClassKind,
    parts: Option<&'a [Part<'a>]>,
) -> Result<ItemList<Member>, Unread>
    ensures { Reads result (at_site classes.members_of site.entry kind (option_map all parts.entry)) }
{
    match parts {
        None => Ok(ItemList::new(alloc)),
        Some(parts) => {
            let parts = accessed(alloc, site.tokens, first_access(kind), parts)?;
            members(alloc, site, parts.as_slice())
        }
    }
}

/// Reads a class at the site, of a number of nodes, with the parameters that are types.
#[tactic(auto, unfolding(crate::specs::Classes::class_of))]
pub(crate) fn class_of(
    alloc: Global,
    site: Site,
    nodes: u32,
    types: ItemList<Text>,
    found: ClassParts,
) -> Result<Class, Unread>
    ensures { Reads result
        (at_site classes.class_of site.entry nodes types (class_seen found.entry)) }
{
    let kind = kind(site.tokens, found.kind)?;
    let name = text_of(alloc, site.tokens, found.name)?;
    let parent = parent_of(alloc, site, found.parent)?;
    let defined = found.members.is_some();
    let members = members_of(alloc, site, kind, found.members)?;
    Ok(Class {
        place: site.place,
        nodes,
        types,
        kind,
        name,
        parent,
        defined,
        members,
    })
}
