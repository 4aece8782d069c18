//! The named parts of values.
ghost use Rattle.std.specs.Prelude.{◌≡◌, option_map};
ghost use Rattle.mql_views.specs.Values as values;
ghost use Rattle.mql_views.specs.Seen.{part_seen, seen, all, pair_seen, between_seen, conditional_seen, bracket_seen, call_seen};

use crate::cuts::{all_to, last, may, next, parted, sign};
use crate::part::Part;
use mql_grammar::Class;

/// `*` behind a type.
pub(crate) const STARS: [Class; 2] = [Class::Star, Class::PointerStar];

/// Two values with an operator between them: a level, an assignment, a member, a name of a class.
#[derive(Clone, Copy)]
pub struct Between<'a> {
    pub left: Part<'a>,
    pub operator: Part<'a>,
    pub right: Part<'a>,
}

/// A test and the values for it.
#[derive(Clone, Copy)]
pub struct Conditional<'a> {
    pub test: Part<'a>,
    pub chosen: Part<'a>,
    pub other: Part<'a>,
}

/// What begins with `(`.
#[derive(Clone, Copy)]
pub enum Bracket<'a> {
    /// A value in parentheses.
    Inner(Part<'a>),
    /// A cast: the type, whether `*` stands behind it, and the value.
    Cast(Part<'a>, bool, Part<'a>),
}

/// What is called, and its arguments with their commas; a template or a type, and its arguments.
#[derive(Clone, Copy)]
pub struct Call<'a> {
    pub callee: Part<'a>,
    pub arguments: &'a [Part<'a>],
}

/// The two parts of an operator before or behind a value.
#[tactic(auto, unfolding(crate::specs::Values::pair))]
pub fn pair<'a>(parts: &'a [Part<'a>]) -> Option<(Part<'a>, Part<'a>)>
    ensures { option_map pair_seen result ≡ values.pair (seen parts.now) }
{
    let (first, rest) = next(parts)?;
    let second = last(rest)?;
    Some((first, second))
}

/// The named parts of two values with an operator between them.
#[tactic(auto, unfolding(crate::specs::Values::between))]
pub fn read_between<'a>(parts: &'a [Part<'a>]) -> Option<Between<'a>>
    ensures { option_map between_seen result ≡ values.between (seen parts.now) }
{
    let (left, rest) = next(parts)?;
    let (operator, rest) = next(rest)?;
    let right = last(rest)?;
    Some(Between {
        left,
        operator,
        right,
    })
}

/// The named parts of `?:`.
#[tactic(auto, unfolding(crate::specs::Values::conditional))]
pub fn read_conditional<'a>(parts: &'a [Part<'a>]) -> Option<Conditional<'a>>
    ensures { option_map conditional_seen result ≡ values.conditional (seen parts.now) }
{
    let (test, rest) = next(parts)?;
    let rest = sign(&[Class::Question], rest)?;
    let (chosen, rest) = next(rest)?;
    let rest = sign(&[Class::Colon], rest)?;
    let other = last(rest)?;
    Some(Conditional {
        test,
        chosen,
        other,
    })
}

/// An array, and the index of an element.
#[tactic(auto, unfolding(crate::specs::Values::index))]
pub fn read_index<'a>(parts: &'a [Part<'a>]) -> Option<(Part<'a>, Part<'a>)>
    ensures { option_map pair_seen result ≡ values.index (seen parts.now) }
{
    let (array, rest) = next(parts)?;
    let rest = sign(&[Class::OpenBracket], rest)?;
    let (index, rest) = next(rest)?;
    let rest = sign(&[Class::CloseBracket], rest)?;
    match parted(rest) {
        None => Some((array, index)),
        Some(_) => None,
    }
}

/// A simple type, and the value that is taken into it.
#[tactic(auto, unfolding(crate::specs::Values::conversion))]
pub fn read_conversion<'a>(parts: &'a [Part<'a>]) -> Option<(Part<'a>, Part<'a>)>
    ensures { option_map pair_seen result ≡ values.conversion (seen parts.now) }
{
    let (kind, rest) = next(parts)?;
    let rest = sign(&[Class::ConversionParen], rest)?;
    let (value, rest) = next(rest)?;
    let rest = sign(&[Class::CloseParen], rest)?;
    match parted(rest) {
        None => Some((kind, value)),
        Some(_) => None,
    }
}

#[tactic(auto, unfolding(crate::specs::Values::bracket_end))]
fn bracket_end<'a>(inner: Part<'a>, pointer: bool, parts: &'a [Part<'a>]) -> Option<Bracket<'a>>
    ensures { option_map bracket_seen result
        ≡ values.bracket_end (part_seen inner.entry) pointer (seen parts.now) }
{
    match parted(parts) {
        None => Some(Bracket::Inner(inner)),
        Some((value, rest)) => match parted(rest) {
            None => Some(Bracket::Cast(inner, pointer, value)),
            Some(_) => None,
        },
    }
}

/// The named parts of a value in parentheses or of a cast.
#[tactic(auto, unfolding(crate::specs::Values::bracket))]
pub fn read_bracket<'a>(parts: &'a [Part<'a>]) -> Option<Bracket<'a>>
    ensures { option_map bracket_seen result ≡ values.bracket (seen parts.now) }
{
    let rest = sign(&[Class::OpenParen], parts)?;
    let (inner, rest) = next(rest)?;
    let (pointer, rest) = may(&STARS, rest);
    let rest = sign(&[Class::CloseParen], rest)?;
    bracket_end(inner, pointer, rest)
}

/// The named parts of a call.
#[tactic(auto, unfolding(crate::specs::Values::call))]
pub fn read_call<'a>(parts: &'a [Part<'a>]) -> Option<Call<'a>>
    ensures { option_map call_seen result ≡ values.call (seen parts.now) }
{
    let (callee, rest) = next(parts)?;
    let rest = sign(&[Class::OpenParen], rest)?;
    let arguments = all_to(Class::CloseParen, rest)?;
    Some(Call { callee, arguments })
}

/// A template of classes or functions, and its arguments.
#[tactic(auto, unfolding(crate::specs::Values::generic))]
pub fn read_generic<'a>(parts: &'a [Part<'a>]) -> Option<Call<'a>>
    ensures { option_map call_seen result ≡ values.generic (seen parts.now) }
{
    let (callee, rest) = next(parts)?;
    let rest = sign(&[Class::TypeLess, Class::FunctionLess], rest)?;
    let arguments = all_to(Class::Greater, rest)?;
    Some(Call { callee, arguments })
}

#[tactic(auto, unfolding(crate::specs::Values::new_arguments))]
fn new_arguments<'a>(parts: &'a [Part<'a>]) -> Option<&'a [Part<'a>]>
    ensures { option_map all result ≡ values.new_arguments (seen parts.now) }
{
    match parted(parts) {
        None => Some(parts),
        Some(_) => match sign(&[Class::OpenParen, Class::ConversionParen], parts) {
            None => None,
            Some(rest) => all_to(Class::CloseParen, rest),
        },
    }
}

/// The type of a new object, and the arguments of its constructor.
#[tactic(auto, unfolding(crate::specs::Values::new_object))]
pub fn read_new<'a>(parts: &'a [Part<'a>]) -> Option<Call<'a>>
    ensures { option_map call_seen result ≡ values.new_object (seen parts.now) }
{
    let rest = sign(&[Class::New], parts)?;
    let (callee, rest) = next(rest)?;
    let arguments = new_arguments(rest)?;
    Some(Call { callee, arguments })
}

#[tactic(auto, unfolding(crate::specs::Values::dynamic_value))]
fn dynamic_value<'a>(kind: Part<'a>, parts: &'a [Part<'a>]) -> Option<(Part<'a>, Part<'a>)>
    ensures { option_map pair_seen result ≡ values.dynamic_value (part_seen kind.entry) (seen parts.now) }
{
    let rest = sign(&[Class::Greater], parts)?;
    let rest = sign(&[Class::OpenParen], rest)?;
    let (value, rest) = next(rest)?;
    let rest = sign(&[Class::CloseParen], rest)?;
    match parted(rest) {
        None => Some((kind, value)),
        Some(_) => None,
    }
}

/// The type of a `dynamic_cast` and its value.
#[tactic(auto, unfolding(crate::specs::Values::dynamic_cast))]
pub fn read_dynamic_cast<'a>(parts: &'a [Part<'a>]) -> Option<(Part<'a>, Part<'a>)>
    ensures { option_map pair_seen result ≡ values.dynamic_cast (seen parts.now) }
{
    let rest = sign(&[Class::DynamicCast], parts)?;
    let rest = sign(&[Class::Less], rest)?;
    let (kind, rest) = next(rest)?;
    let rest = sign(&STARS, rest)?;
    dynamic_value(kind, rest)
}

/// What stands in braces, with its commas.
#[tactic(auto, unfolding(crate::specs::Values::in_braces))]
pub fn in_braces<'a>(parts: &'a [Part<'a>]) -> Option<&'a [Part<'a>]>
    ensures { option_map all result ≡ values.in_braces (seen parts.now) }
{
    let rest = sign(&[Class::OpenBrace], parts)?;
    all_to(Class::CloseBrace, rest)
}
