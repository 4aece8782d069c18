//! What a piece of text means: nothing, a token or a fault.
ghost use Rattle.std.specs.Prelude.{◌≡◌, ◌≤◌, length, drop, IfOk, Some};
ghost use Rattle.mql_spelling.specs.Value.{value_from, spelled};
ghost use Rattle.mql_tree.specs.Pieces.{decimal, hexadecimal, named, between, string, character, real_of, color_of, date_of, quoted, meaning};
ghost use Rattle.mql_tree.specs.declared.token.Token.TheVariants as tokens;
ghost use Rattle.mql_tree.specs.declared.value.Meaning.TheVariants as meanings;
ghost use Rattle.mql_source.specs.Limits.{most_units};

use crate::{IncludePlace, Token};
use fx8::{Fix8, IntKind, OutOfMemory, Text};
use mql_spelling::{Lexeme, Quote, color_value, date_value, number, real_value, spelled_text};
use std::alloc::Global;

/// Why a piece means no token.
#[derive(Clone, Copy, Debug, PartialEq, Eq)]
pub enum PieceFault {
    NoToken,
    NameTooLong,
    NumberTooLarge,
    OpenComment,
    OpenString,
}

/// What a piece means.
#[derive(Debug, Drop)]
pub enum Meaning {
    Nothing,
    Token(Token),
    Fault(PieceFault),
}

/// A decimal literal: the first of `int`, `long` and `ulong` that holds it.
#[tactic(auto, unfolding(crate::specs::Pieces::decimal))]
fn decimal(digits: &[u16]) -> Meaning
    ensures { result ≡ decimal (value_from 10 0 digits.now) }
{
    match number(10, digits) {
        None => Meaning::Fault(PieceFault::NumberTooLarge),
        Some(value) if value < 0x8000_0000 => Meaning::Token(Token::Int {
            value,
            kind: IntKind::Int,
        }),
        Some(value) if value < 0x8000_0000_0000_0000 => Meaning::Token(Token::Int {
            value,
            kind: IntKind::Long,
        }),
        Some(value) => Meaning::Token(Token::Int {
            value,
            kind: IntKind::Ulong,
        }),
    }
}

/// A hexadecimal literal: the first of `int`, `uint`, `long` and `ulong` that holds it.
#[tactic(auto, unfolding(crate::specs::Pieces::hexadecimal))]
fn hexadecimal(digits: &[u16]) -> Meaning
    ensures { result ≡ hexadecimal (value_from 16 0 digits.now) }
{
    match number(16, digits) {
        None => Meaning::Fault(PieceFault::NumberTooLarge),
        Some(value) if value < 0x8000_0000 => Meaning::Token(Token::Int {
            value,
            kind: IntKind::Int,
        }),
        Some(value) if value < 0x1_0000_0000 => Meaning::Token(Token::Int {
            value,
            kind: IntKind::Uint,
        }),
        Some(value) if value < 0x8000_0000_0000_0000 => Meaning::Token(Token::Int {
            value,
            kind: IntKind::Long,
        }),
        Some(value) => Meaning::Token(Token::Int {
            value,
            kind: IntKind::Ulong,
        }),
    }
}

/// A name, of at most 63 characters.
#[tactic(auto, unfolding(crate::specs::Pieces::named))]
fn named(alloc: Global, name: &[u16]) -> Result<Meaning, OutOfMemory>
    ensures { IfOk result (λ means. means ≡ named name.now) }
{
    if name.len() > 63 {
        return Ok(Meaning::Fault(PieceFault::NameTooLong));
    }
    let text = Text::from_slice(alloc, name)?;
    Ok(Meaning::Token(Token::Name(text)))
}

/// What stands between the first unit and the last.
fn between(piece: &[u16]) -> &[u16]
    ensures { result.now ≡ between piece.now }
{
    let front = piece.split_at(piece.len().saturating_sub(1)).0;
    match front.split_first() {
        Some((_, inner)) => inner,
        None => front,
    }
}

/// What stands between the quotes of a date or a color.
fn behind_mark(piece: &[u16]) -> &[u16]
    ensures { result.now ≡ drop 1 (between piece.now) }
{
    let text = between(piece);
    match text.split_first() {
        Some((_, inner)) => inner,
        None => text,
    }
}

/// The units from the third on.
fn behind_two(piece: &[u16]) -> &[u16]
    ensures { result.now ≡ drop 2 piece.now }
{
    piece.split_at(piece.len().min(2)).1
}

/// What a text between quotes means.
#[tactic(auto, unfolding(crate::specs::Pieces::quoted))]
fn quoted(alloc: Global, quote: Quote, piece: &[u16]) -> Result<Meaning, OutOfMemory>
    ensures { IfOk result (λ means. means ≡ quoted quote piece.now) }
{
    match quote {
        Quote::Str => string(alloc, piece),
        Quote::Char => character(alloc, piece),
        Quote::Date => Ok(date(date_value(behind_mark(piece)))),
        Quote::Color => Ok(color(color_value(behind_mark(piece)))),
        Quote::File => included(alloc, IncludePlace::BesideFile, piece),
        Quote::Library => included(alloc, IncludePlace::Supplied, piece),
    }
}

/// A string.
fn string(alloc: Global, piece: &[u16]) -> Result<Meaning, OutOfMemory>
    ensures { IfOk result (λ means. means ≡ string (spelled (between piece.now))) }
{
    match spelled_text(alloc, between(piece))? {
        Some(text) => Ok(Meaning::Token(Token::Str(text))),
        None => Ok(Meaning::Fault(PieceFault::NoToken)),
    }
}

/// A character.
fn character(alloc: Global, piece: &[u16]) -> Result<Meaning, OutOfMemory>
    ensures { IfOk result (λ means. means ≡ character (spelled (between piece.now))) }
{
    match spelled_text(alloc, between(piece))? {
        Some(text) => Ok(one_unit(text.as_slice())),
        None => Ok(Meaning::Fault(PieceFault::NoToken)),
    }
}

fn one_unit(text: &[u16]) -> Meaning
    ensures { result ≡ character (Some text.now) }
{
    match text {
        [unit] => Meaning::Token(Token::Int {
            value: u64::from(*unit),
            kind: IntKind::Ushort,
        }),
        _ => Meaning::Fault(PieceFault::NoToken),
    }
}

/// A double.
fn real(value: Option<Fix8>) -> Meaning
    ensures { result ≡ real_of value }
{
    match value {
        Some(number) => Meaning::Token(Token::Double(number)),
        None => Meaning::Fault(PieceFault::NumberTooLarge),
    }
}

/// A color.
fn color(value: Option<u64>) -> Meaning
    ensures { result ≡ color_of value }
{
    match value {
        Some(value) => Meaning::Token(Token::Int {
            value,
            kind: IntKind::Color,
        }),
        None => Meaning::Fault(PieceFault::NoToken),
    }
}

/// A date.
fn date(value: Option<u64>) -> Meaning
    ensures { result ≡ date_of value }
{
    match value {
        Some(value) => Meaning::Token(Token::Int {
            value,
            kind: IntKind::Datetime,
        }),
        None => Meaning::Fault(PieceFault::NoToken),
    }
}

/// The name of an included file that is looked for there.
fn included(alloc: Global, place: IncludePlace, piece: &[u16]) -> Result<Meaning, OutOfMemory>
    ensures { IfOk result (λ means. means ≡ meanings.Token (tokens.IncludeName (between piece.now) place)) }
{
    let name = Text::from_slice(alloc, between(piece))?;
    Ok(Meaning::Token(Token::IncludeName { name, place }))
}

/// What a piece means.
#[tactic(auto, unfolding(crate::specs::Pieces::meaning))]
pub fn piece_meaning(alloc: Global, what: Lexeme, piece: &[u16]) -> Result<Meaning, OutOfMemory>
    requires { length piece.now ≤ most_units }
    ensures { IfOk result (λ means. means ≡ meaning what piece.now) }
{
    match what {
        Lexeme::Blank => Ok(Meaning::Nothing),
        Lexeme::OpenComment => Ok(Meaning::Fault(PieceFault::OpenComment)),
        Lexeme::Name => named(alloc, piece),
        Lexeme::Decimal => Ok(decimal(piece)),
        Lexeme::Hexadecimal => Ok(hexadecimal(behind_two(piece))),
        Lexeme::Double => Ok(real(real_value(alloc, piece)?)),
        Lexeme::Quoted(quote) => quoted(alloc, quote, piece),
        Lexeme::OpenString => Ok(Meaning::Fault(PieceFault::OpenString)),
        Lexeme::Sign(sign) => Ok(Meaning::Token(Token::Sign(sign))),
        Lexeme::LineEnd => Ok(Meaning::Token(Token::LineEnd)),
    }
}
