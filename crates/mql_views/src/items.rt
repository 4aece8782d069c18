//! The named parts of items and members.
ghost use Rattle.std.specs.Prelude.{◌≡◌, option_map};
ghost use Rattle.mql_views.specs.Items as items;
ghost use Rattle.mql_views.specs.Seen.{part_seen, seen, variables_seen, declaration_seen, item_seen, split_seen, templated_seen, template_seen, member_seen};

use crate::cuts::{all_to, must, next, parted, sign, up_to};
use crate::declarations::{
    Function, LOCAL_WORDS, STORE_WORDS, Variables, read_function, read_variables,
};
use crate::part::{Part, is};
use mql_forms::Form;
use mql_grammar::Class;

/// A function, or variables.
#[derive(Clone, Copy)]
pub enum Declaration<'a> {
    Function(Function<'a>),
    Variables(Variables<'a>),
}

/// An item that is no class and no enumeration.
#[derive(Clone, Copy)]
pub enum Item<'a> {
    /// `input group`, with its text.
    Group(Part<'a>),
    Declares(Declaration<'a>),
}

/// What a template is of.
#[derive(Clone, Copy)]
pub enum Templated<'a> {
    Class(Part<'a>),
    Function(Function<'a>),
}

/// A template, with its parameters as they stand between `<` and `>`.
#[derive(Clone, Copy)]
pub struct Template<'a> {
    pub params: &'a [Part<'a>],
    pub of: Templated<'a>,
}

/// A member of a class; a function may be a template, with its parameters.
#[derive(Clone, Copy)]
pub struct Member<'a> {
    pub params: &'a [Part<'a>],
    pub declares: Declaration<'a>,
}

#[tactic(auto, unfolding(crate::specs::Items::only_variables))]
fn only_variables<'a>(words: &[Class], parts: &'a [Part<'a>]) -> Option<Variables<'a>>
    ensures { option_map variables_seen result ≡ items.only_variables words.now (seen parts.now) }
{
    let inner = all_to(Class::Semicolon, parts)?;
    read_variables(words, inner)
}

/// A function, or variables with these words; what fits both is a function.
#[tactic(auto, unfolding(crate::specs::Items::declaration))]
fn read_declaration<'a>(words: &[Class], parts: &'a [Part<'a>]) -> Option<Declaration<'a>>
    ensures { option_map declaration_seen result ≡ items.declaration words.now (seen parts.now) }
{
    match read_function(parts) {
        Some(function) => Some(Declaration::Function(function)),
        None => match only_variables(words, parts) {
            None => None,
            Some(found) => Some(Declaration::Variables(found)),
        },
    }
}

#[tactic(auto, unfolding(crate::specs::Items::group))]
fn group<'a>(parts: &'a [Part<'a>]) -> Option<Part<'a>>
    ensures { option_map part_seen result ≡ items.group (seen parts.now) }
{
    let rest = sign(&[Class::Input], parts)?;
    let rest = sign(&[Class::Group], rest)?;
    let (text, _) = next(rest)?;
    Some(text)
}

/// The named parts of an item.
#[tactic(auto, unfolding(crate::specs::Items::item))]
pub fn read_item<'a>(parts: &'a [Part<'a>]) -> Option<Item<'a>>
    ensures { option_map item_seen result ≡ items.item (seen parts.now) }
{
    match group(parts) {
        Some(text) => Some(Item::Group(text)),
        None => match read_declaration(&STORE_WORDS, parts) {
            None => None,
            Some(found) => Some(Item::Declares(found)),
        },
    }
}

#[tactic(auto, unfolding(crate::specs::Items::template_head))]
fn template_head<'a>(parts: &'a [Part<'a>]) -> Option<(&'a [Part<'a>], &'a [Part<'a>])>
    ensures { option_map split_seen result ≡ items.template_head (seen parts.now) }
{
    let rest = sign(&[Class::Template], parts)?;
    let rest = sign(&[Class::Less], rest)?;
    up_to(Class::Greater, rest)
}

#[tactic(auto, unfolding(crate::specs::Items::lone_class))]
fn lone_class<'a>(parts: &'a [Part<'a>]) -> Option<Part<'a>>
    ensures { option_map part_seen result ≡ items.lone_class (seen parts.now) }
{
    let (class, rest) = must(&[], &[Form::Class], parts)?;
    match parted(rest) {
        None => Some(class),
        Some(_) => None,
    }
}

#[tactic(auto, unfolding(crate::specs::Items::templated))]
fn read_templated<'a>(parts: &'a [Part<'a>]) -> Option<Templated<'a>>
    ensures { option_map templated_seen result ≡ items.templated (seen parts.now) }
{
    match lone_class(parts) {
        Some(class) => Some(Templated::Class(class)),
        None => match read_function(parts) {
            None => None,
            Some(function) => Some(Templated::Function(function)),
        },
    }
}

/// The named parts of a template.
#[tactic(auto, unfolding(crate::specs::Items::template))]
pub fn read_template<'a>(parts: &'a [Part<'a>]) -> Option<Template<'a>>
    ensures { option_map template_seen result ≡ items.template (seen parts.now) }
{
    let (params, rest) = template_head(parts)?;
    let of = read_templated(rest)?;
    Some(Template { params, of })
}

#[tactic(auto, unfolding(crate::specs::Items::member_template))]
fn member_template<'a>(parts: &'a [Part<'a>]) -> Option<Member<'a>>
    ensures { option_map member_seen result ≡ items.member_template (seen parts.now) }
{
    let (params, rest) = template_head(parts)?;
    let function = read_function(rest)?;
    Some(Member {
        params,
        declares: Declaration::Function(function),
    })
}

/// The named parts of a member of a class.
#[tactic(auto, unfolding(crate::specs::Items::member))]
pub fn read_member<'a>(parts: &'a [Part<'a>]) -> Option<Member<'a>>
    ensures { option_map member_seen result ≡ items.member (seen parts.now) }
{
    let (first, _) = parted(parts)?;
    if is(&[Class::Template], &[], first) {
        member_template(parts)
    } else {
        match read_declaration(&LOCAL_WORDS, parts) {
            None => None,
            Some(declares) => Some(Member {
                params: &[],
                declares,
            }),
        }
    }
}
