//! The text that is spelled between quotes.
ghost use Rattle.std.specs.Prelude.{◌≡◌, ℕ, ◌+◌, ◌*◌, ◌<◌, List, [], ◌∷◌, ◌++◌, length, IfOk, MatchOption, Option, true, false, Some, None};
ghost use Rattle.mql_spelling.specs.Lexeme.{is_hex_digit};
ghost use Rattle.mql_spelling.specs.Value.{digit_value, escape_unit, with_front, plainly, text_of, adding, IsInRange, put_behind, spelled};
ghost use Rattle.mql_spelling.specs.declared.escape.Escape.TheVariants as escapes;

use crate::units::is_hex_digit;
use crate::value::digit_value;
use fx8::{OutOfMemory, Text};
use std::alloc::Global;

/// Where a unit stands in a text with escapes.
#[derive(Clone, Copy)]
pub enum Escape {
    Plain,
    /// Behind `\`.
    Started,
    /// Behind `\x`.
    Hex,
    /// Behind one to four hexadecimal digits, with their number.
    One(u16),
    Two(u16),
    Three(u16),
    Four(u16),
}

/// What one unit more adds to the text.
#[derive(Clone, Copy)]
pub enum Added {
    Nothing,
    One(u16),
    Two(u16, u16),
    /// The escape is none.
    Bad,
}

/// The value of a hexadecimal digit.
fn hex_value(unit: u16) -> Option<u16>
    ensures digit { MatchOption result (is_hex_digit unit ≡ false) (λ d. is_hex_digit unit ≡ true) }
    ensures value { MatchOption result (is_hex_digit unit ≡ false) (λ d. d ≡ digit_value unit) }
    ensures small { MatchOption result (is_hex_digit unit ≡ false) (λ d. d < 16) }
{
    if is_hex_digit(unit) {
        Some(digit_value(unit))
    } else {
        None
    }
}

fn escape_unit(unit: u16) -> Option<u16>
    ensures { result ≡ escape_unit unit }
{
    if unit == 110 {
        return Some(10);
    }
    if unit == 116 {
        return Some(9);
    }
    if unit == 114 {
        return Some(13);
    }
    if unit == 92 {
        return Some(92);
    }
    if unit == 34 {
        return Some(34);
    }
    if unit == 39 {
        return Some(39);
    }
    if unit == 48 {
        return Some(0);
    }
    None
}

#[tactic(auto, unfolding(crate::specs::Value::text_of))]
fn plain_step(unit: u16) -> (Escape, Added)
    ensures step { (rest : List ℕ)
        → text_of escapes.Plain (unit ∷ rest) ≡ adding result.1 (text_of result.0 rest) }
    ensures range { IsInRange result.0 }
{
    if unit == 92 {
        (Escape::Started, Added::Nothing)
    } else {
        (Escape::Plain, Added::One(unit))
    }
}

#[tactic(auto, unfolding(crate::specs::Value::text_of))]
fn started_step(unit: u16) -> (Escape, Added)
    ensures step { (rest : List ℕ)
        → text_of escapes.Started (unit ∷ rest) ≡ adding result.1 (text_of result.0 rest) }
    ensures range { IsInRange result.0 }
{
    if unit == 120 {
        return (Escape::Hex, Added::Nothing);
    }
    match escape_unit(unit) {
        Some(other) => (Escape::Plain, Added::One(other)),
        None => (Escape::Plain, Added::Bad),
    }
}

/// Behind an escape of hexadecimal digits comes a unit that is none.
fn behind_value(value: u16, unit: u16) -> (Escape, Added)
    ensures step { (rest : List ℕ)
        → with_front value (plainly unit (text_of escapes.Started rest) (text_of escapes.Plain rest))
        ≡ adding result.1 (text_of result.0 rest) }
    ensures range { IsInRange result.0 }
{
    if unit == 92 {
        (Escape::Started, Added::One(value))
    } else {
        (Escape::Plain, Added::Two(value, unit))
    }
}

/// What one unit more adds, and where the next one stands.
#[tactic(auto, unfolding(crate::specs::Value::text_of))]
fn escape_step(at: Escape, unit: u16) -> (Escape, Added)
    requires { IsInRange at }
    ensures step { (rest : List ℕ) → text_of at (unit ∷ rest) ≡ adding result.1 (text_of result.0 rest) }
    ensures range { IsInRange result.0 }
{
    match at {
        Escape::Plain => plain_step(unit),
        Escape::Started => started_step(unit),
        Escape::Hex => match hex_value(unit) {
            Some(digit) => (Escape::One(digit), Added::Nothing),
            None => (Escape::Plain, Added::Bad),
        },
        Escape::One(value) => match hex_value(unit) {
            Some(digit) => (Escape::Two(16 * value + digit), Added::Nothing),
            None => behind_value(value, unit),
        },
        Escape::Two(value) => match hex_value(unit) {
            Some(digit) => (Escape::Three(16 * value + digit), Added::Nothing),
            None => behind_value(value, unit),
        },
        Escape::Three(value) => match hex_value(unit) {
            Some(digit) => (Escape::Four(16 * value + digit), Added::Nothing),
            None => behind_value(value, unit),
        },
        Escape::Four(value) => behind_value(value, unit),
    }
}

/// What the end of the text adds.
#[tactic(auto, unfolding(crate::specs::Value::text_of))]
fn at_end(at: Escape) -> Added
    ensures { text_of at [] ≡ adding result (Some []) }
{
    match at {
        Escape::Plain => Added::Nothing,
        Escape::Started => Added::Bad,
        Escape::Hex => Added::Bad,
        Escape::One(value) => Added::One(value),
        Escape::Two(value) => Added::One(value),
        Escape::Three(value) => Added::One(value),
        Escape::Four(value) => Added::One(value),
    }
}

/// Adds units to a text; `false` where there is no text.
fn add(text: &mut Text, added: Added) -> Result<bool, OutOfMemory>
    ensures good { IfOk result (λ good. (rest : List ℕ) → good ≡ true
        → put_behind text.old (adding added (Some rest)) ≡ put_behind text.new (Some rest)) }
    ensures bad { IfOk result (λ good. (rest : Option (List ℕ)) → good ≡ false → adding added rest ≡ None) }
{
    match added {
        Added::Nothing => Ok(true),
        Added::One(unit) => {
            text.push(unit)?;
            Ok(true)
        }
        Added::Two(first, second) => {
            text.push(first)?;
            text.push(second)?;
            Ok(true)
        }
        Added::Bad => Ok(false),
    }
}

/// The text that is spelled between quotes, or `None` where an escape is none.
pub fn spelled_text(alloc: Global, units: &[u16]) -> Result<Option<Text>, OutOfMemory>
    ensures { IfOk result (λ text. text ≡ spelled units.now) }
{
    let mut text = Text::new(alloc);
    let mut at = Escape::Plain;
    let mut rest = units;
    while let Some((unit, others)) = rest.split_first() {
        let (next, added) = escape_step(at, *unit);
        if !add(&mut text, added)? {
            return Ok(None);
        }
        at = next;
        rest = others;
    }
    if !add(&mut text, at_end(at))? {
        return Ok(None);
    }
    Ok(Some(text))
}
