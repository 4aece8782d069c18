//! The tokens of a text.
ghost use Rattle.std.specs.Prelude.{◌≡◌, ℕ, ◌+◌, ◌<◌, ◌≤◌, length, OnErr, IfOk, List, Some, None, Ok, Err};
ghost use Rattle.mql_spelling.specs.Lexeme.{lexeme};
ghost use Rattle.mql_spelling.specs.Longest.{Longest};
ghost use Rattle.mql_tree.specs.Tokens.{behind_hash, behind_plain, behind_other, mode_behind, line_ends, span_of, fault_at, start, Answer, Lexes, IsLexed};
ghost use Rattle.mql_source.specs.Limits.{most_units};

use crate::value::{Meaning, PieceFault, piece_meaning};
use crate::{LexFault, Span, Token, Tokens};
use fx8::Text;
use mql_spelling::{Mode, Sign, is_spelled, longest};
use std::alloc::Global;

fn behind_hash(token: &Token) -> Mode
    ensures { result ≡ behind_hash token.now }
{
    match token {
        Token::Name(name) => {
            if is_spelled(name.as_slice(), b"include") {
                Mode::Include
            } else {
                Mode::Directive
            }
        }
        Token::LineEnd => Mode::Plain,
        _ => Mode::Directive,
    }
}

fn behind_plain(token: &Token) -> Mode
    ensures { result ≡ behind_plain token.now }
{
    match token {
        Token::Sign(Sign::Hash) => Mode::Hash,
        _ => Mode::Plain,
    }
}

fn behind_other(token: &Token) -> Mode
    ensures { result ≡ behind_other token.now }
{
    match token {
        Token::LineEnd => Mode::Plain,
        _ => Mode::Directive,
    }
}

/// Where the next piece stands, behind a token.
#[tactic(auto, unfolding(crate::specs::Tokens::mode_behind))]
fn mode_behind(mode: Mode, token: &Token) -> Mode
    ensures { result ≡ mode_behind mode token.now }
{
    match mode {
        Mode::Plain => behind_plain(token),
        Mode::Hash => behind_hash(token),
        Mode::Include => behind_other(token),
        Mode::Directive => behind_other(token),
    }
}

/// How many lines end in a piece.
fn line_ends(piece: &[u16]) -> usize
    ensures count { result ≡ line_ends piece.now }
    ensures within { result ≤ length piece.now }
{
    piece.iter().filter(|unit| **unit == 10).count()
}

/// The fault of a piece, and where.
fn fault_at(fault: PieceFault, span: Span) -> LexFault
    ensures { result ≡ fault_at fault span }
{
    match fault {
        PieceFault::NoToken => LexFault::NoToken(span),
        PieceFault::NameTooLong => LexFault::NameTooLong(span),
        PieceFault::NumberTooLarge => LexFault::NumberTooLarge(span),
        PieceFault::OpenComment => LexFault::OpenComment(span),
        PieceFault::OpenString => LexFault::OpenString(span),
    }
}

/// The tokens of a text that is the file of that number, or the first fault in it. It asks for at most
/// 1,048,576 units.
pub fn lex(alloc: Global, file: u32, text: &Text) -> Result<Tokens, LexFault>
    requires { length text.now ≤ most_units }
    ensures { IsLexed file text.now result }
{
    let mut tokens = Tokens::new(alloc);
    let mut mode = Mode::Plain;
    let mut line = 1u32;
    let mut place = 0u32;
    let mut rest = text.as_slice();
    while rest.len() > 0 {
        let Some((count, what)) = longest(mode, rest) else {
            return Err(LexFault::NoToken(Span {
                file,
                line,
                start: place,
                end: place + 1,
            }));
        };
        let (piece, others) = rest.split_at(count);
        let span = Span {
            file,
            line,
            start: place,
            end: place + count as u32,
        };
        match piece_meaning(alloc, what, piece)? {
            Meaning::Nothing => {
                line += line_ends(piece) as u32;
                place += count as u32;
                rest = others;
                continue;
            }
            Meaning::Token(token) => {
                let next = mode_behind(mode, &token);
                tokens.push((token, span))?;
                mode = next;
                line += line_ends(piece) as u32;
                place += count as u32;
                rest = others;
                continue;
            }
            Meaning::Fault(fault) => return Err(fault_at(fault, span)),
        }
    }
    Ok(tokens)
}

/// A text has one answer: these tokens, or this first fault.
pub fn one_answer()
    ensures { (file : ℕ) (us : List ℕ) (a b : Answer) → Lexes file start us a → Lexes file start us b
        → a ≡ b }
{}
