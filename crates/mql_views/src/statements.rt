//! The named parts of statements.
ghost use Rattle.std.specs.Prelude.{◌≡◌, option_map};
ghost use Rattle.mql_views.specs.Statements as statements;
ghost use Rattle.mql_views.specs.Seen.{part_seen, seen, all, cut_seen, maybe_seen, pair_seen, if_seen, simple_seen, for_seen, switch_seen};

use crate::cuts::{all_to, last, next, parted, sign, up_to};
use crate::declarations::{LOCAL_WORDS, Variables, read_variables};
use crate::part::{Part, is};
use mql_grammar::Class;

/// `if`.
#[derive(Clone, Copy)]
pub struct If<'a> {
    pub test: Part<'a>,
    pub chosen: Part<'a>,
    pub other: Option<Part<'a>>,
}

/// Variables of a block, or values with their commas.
#[derive(Clone, Copy)]
pub enum Simple<'a> {
    Locals(Variables<'a>),
    Values(&'a [Part<'a>]),
}

/// `for`.
#[derive(Clone, Copy)]
pub struct For<'a> {
    pub start: Simple<'a>,
    pub test: Option<Part<'a>>,
    pub step: &'a [Part<'a>],
    pub body: Part<'a>,
}

/// `switch`, with all that stands in its braces.
#[derive(Clone, Copy)]
pub struct Switch<'a> {
    pub value: Part<'a>,
    pub body: &'a [Part<'a>],
}

/// A test in parentheses, and the parts behind.
#[tactic(auto, unfolding(crate::specs::Statements::tested))]
fn tested<'a>(parts: &'a [Part<'a>]) -> Option<(Part<'a>, &'a [Part<'a>])>
    ensures { option_map cut_seen result ≡ statements.tested (seen parts.now) }
{
    let rest = sign(&[Class::OpenParen], parts)?;
    let (test, rest) = next(rest)?;
    let rest = sign(&[Class::CloseParen], rest)?;
    Some((test, rest))
}

#[tactic(auto, unfolding(crate::specs::Statements::if_end))]
fn if_end<'a>(test: Part<'a>, chosen: Part<'a>, parts: &'a [Part<'a>]) -> Option<If<'a>>
    ensures { option_map if_seen result
        ≡ statements.if_end (part_seen test.entry) (part_seen chosen.entry) (seen parts.now) }
{
    match parted(parts) {
        None => Some(If {
            test,
            chosen,
            other: None,
        }),
        Some(_) => {
            let rest = sign(&[Class::Else], parts)?;
            let other = last(rest)?;
            Some(If {
                test,
                chosen,
                other: Some(other),
            })
        }
    }
}

/// The named parts of an `if`.
#[tactic(auto, unfolding(crate::specs::Statements::if_of))]
pub fn read_if<'a>(parts: &'a [Part<'a>]) -> Option<If<'a>>
    ensures { option_map if_seen result ≡ statements.if_of (seen parts.now) }
{
    let rest = sign(&[Class::If], parts)?;
    let (test, rest) = tested(rest)?;
    let (chosen, rest) = next(rest)?;
    if_end(test, chosen, rest)
}

/// The test and the body of a `while`.
#[tactic(auto, unfolding(crate::specs::Statements::while_of))]
pub fn read_while<'a>(parts: &'a [Part<'a>]) -> Option<(Part<'a>, Part<'a>)>
    ensures { option_map pair_seen result ≡ statements.while_of (seen parts.now) }
{
    let rest = sign(&[Class::While], parts)?;
    let (test, rest) = tested(rest)?;
    let body = last(rest)?;
    Some((test, body))
}

/// The test and the body of a `do`.
#[tactic(auto, unfolding(crate::specs::Statements::do_of))]
pub fn read_do<'a>(parts: &'a [Part<'a>]) -> Option<(Part<'a>, Part<'a>)>
    ensures { option_map pair_seen result ≡ statements.do_of (seen parts.now) }
{
    let rest = sign(&[Class::Do], parts)?;
    let (body, rest) = next(rest)?;
    let rest = sign(&[Class::While], rest)?;
    let (test, rest) = tested(rest)?;
    let rest = sign(&[Class::Semicolon], rest)?;
    match parted(rest) {
        None => Some((test, body)),
        Some(_) => None,
    }
}

#[tactic(auto, unfolding(crate::specs::Statements::local_or_values))]
fn local_or_values<'a>(parts: &'a [Part<'a>]) -> Option<Simple<'a>>
    ensures { option_map simple_seen result ≡ statements.local_or_values (seen parts.now) }
{
    match parted(parts) {
        None => Some(Simple::Values(parts)),
        Some((_, rest)) => match parted(rest) {
            None => Some(Simple::Values(parts)),
            Some((second, _)) => {
                if is(&[Class::Comma], &[], second) {
                    Some(Simple::Values(parts))
                } else {
                    match read_variables(&LOCAL_WORDS, parts) {
                        None => None,
                        Some(found) => Some(Simple::Locals(found)),
                    }
                }
            }
        },
    }
}

/// The variables or values of a statement.
#[tactic(auto, unfolding(crate::specs::Statements::simple))]
pub fn read_simple<'a>(parts: &'a [Part<'a>]) -> Option<Simple<'a>>
    ensures { option_map simple_seen result ≡ statements.simple (seen parts.now) }
{
    let inner = all_to(Class::Semicolon, parts)?;
    local_or_values(inner)
}

#[tactic(auto, unfolding(crate::specs::Statements::at_most_one))]
fn at_most_one<'a>(parts: &'a [Part<'a>]) -> Option<Option<Part<'a>>>
    ensures { option_map maybe_seen result ≡ statements.at_most_one (seen parts.now) }
{
    match parted(parts) {
        None => Some(None),
        Some((first, rest)) => match parted(rest) {
            None => Some(Some(first)),
            Some(_) => None,
        },
    }
}

#[tactic(auto, unfolding(crate::specs::Statements::for_end))]
fn for_end<'a>(
    start: &'a [Part<'a>],
    test: &'a [Part<'a>],
    step: &'a [Part<'a>],
    body: Part<'a>,
) -> Option<For<'a>>
    ensures { option_map for_seen result
        ≡ statements.for_end (seen start.now) (seen test.now) (seen step.now) (part_seen body.entry) }
{
    let start = local_or_values(start)?;
    let test = at_most_one(test)?;
    Some(For {
        start,
        test,
        step,
        body,
    })
}

/// The named parts of a `for`.
#[tactic(auto, unfolding(crate::specs::Statements::for_of))]
pub fn read_for<'a>(parts: &'a [Part<'a>]) -> Option<For<'a>>
    ensures { option_map for_seen result ≡ statements.for_of (seen parts.now) }
{
    let rest = sign(&[Class::For], parts)?;
    let rest = sign(&[Class::OpenParen], rest)?;
    let (start, rest) = up_to(Class::Semicolon, rest)?;
    let (test, rest) = up_to(Class::Semicolon, rest)?;
    let (step, rest) = up_to(Class::CloseParen, rest)?;
    let body = last(rest)?;
    for_end(start, test, step, body)
}

/// The named parts of a `switch`.
#[tactic(auto, unfolding(crate::specs::Statements::switch_of))]
pub fn read_switch<'a>(parts: &'a [Part<'a>]) -> Option<Switch<'a>>
    ensures { option_map switch_seen result ≡ statements.switch_of (seen parts.now) }
{
    let rest = sign(&[Class::Switch], parts)?;
    let (value, rest) = tested(rest)?;
    let rest = sign(&[Class::OpenBrace], rest)?;
    let body = all_to(Class::CloseBrace, rest)?;
    Some(Switch { value, body })
}

/// The value of a `return`, if there is one.
#[tactic(auto, unfolding(crate::specs::Statements::return_of))]
pub fn read_return<'a>(parts: &'a [Part<'a>]) -> Option<Option<Part<'a>>>
    ensures { option_map maybe_seen result ≡ statements.return_of (seen parts.now) }
{
    let rest = sign(&[Class::Return], parts)?;
    let inner = all_to(Class::Semicolon, rest)?;
    at_most_one(inner)
}

/// The value of a `delete`.
#[tactic(auto, unfolding(crate::specs::Statements::delete_of))]
pub fn read_delete<'a>(parts: &'a [Part<'a>]) -> Option<Part<'a>>
    ensures { option_map part_seen result ≡ statements.delete_of (seen parts.now) }
{
    let rest = sign(&[Class::Delete], parts)?;
    let (value, rest) = next(rest)?;
    let rest = sign(&[Class::Semicolon], rest)?;
    match parted(rest) {
        None => Some(value),
        Some(_) => None,
    }
}
