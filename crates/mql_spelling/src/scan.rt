//! How a piece goes on: what the units read so far leave open.
ghost use Rattle.std.specs.Prelude.{◌≡◌, ℕ, ◌≤◌, List, [], ◌∷◌, length, ◌+◌, ◌^◌, ◌<◌, Option, Some, None, IfSome};
ghost use Rattle.std.specs.Bool.{OnTrue};
ghost use Rattle.mql_spelling.specs.Longest.{Longest, pick, last_from};
ghost use Rattle.std.specs.Prelude.{true, false};
ghost use Rattle.mql_spelling.specs.Lexeme.{is_hex_digit, is_word_unit, is_blank, is_in_line, is_exponent_mark, close_of, has_escapes, unclosed, inside, whole, fraction, block, only, some_only, marked, zero, point, exponent, slash, line_feed, continued, line_end, backslash, quotation, angle, sign_of, lexeme};
ghost use Rattle.fx8.specs.Decimals.{is_digit};
ghost use Rattle.mql_spelling.specs.Onward.{after};
ghost use Rattle.mql_spelling.specs.declared.lexeme.Lexeme.TheVariants.{Name, Double, Hexadecimal, Blank};
ghost use Rattle.mql_source.specs.Limits.{most_units};

use crate::lexeme::{Lexeme, Mode, Quote};
use crate::sign::spelled_sign;
use crate::units::{is_digit, is_hex_digit, is_letter, is_word_unit};

pub fn is_blank(unit: u16) -> bool
    ensures { result ≡ is_blank unit }
{
    unit == 32 || unit == 9 || unit == 13
}

pub fn is_in_line(unit: u16) -> bool
    ensures { result ≡ is_in_line unit }
{
    unit != 10
}

pub fn is_exponent_mark(unit: u16) -> bool
    ensures { result ≡ is_exponent_mark unit }
{
    unit == 101 || unit == 69
}

/// What the units of a piece read so far leave open.
#[derive(Clone, Copy)]
pub enum State {
    /// No piece begins so.
    Dead,
    /// A whole piece, of which no longer one begins so.
    Ended(Lexeme),
    Word,
    /// Behind a first `D` or `C`.
    Marked(Quote),
    Inside(Quote),
    /// Inside, directly behind `\`.
    Skipping(Quote),
    /// Behind a first `0`.
    Zero,
    Whole,
    /// Behind a first `.`.
    Point,
    Fraction,
    /// Behind `e`.
    Mark,
    ExponentSign,
    Exponent,
    /// Behind `0x`.
    HexMark,
    Hex,
    /// Behind a first `/`.
    Slash,
    LineComment,
    Block,
    /// In a comment, directly behind `*`.
    Star,
    /// Behind `\` in a directive.
    Continued,
    ContinuedReturn,
    /// Behind units that begin a sign.
    One(u16),
    Two(u16, u16),
    Three(u16, u16, u16),
}

fn close_of(quote: Quote) -> u16
    ensures { result ≡ close_of quote }
{
    match quote {
        Quote::Str => 34,
        Quote::Char => 39,
        Quote::Date => 39,
        Quote::Color => 39,
        Quote::File => 34,
        Quote::Library => 62,
    }
}

fn has_escapes(quote: Quote) -> bool
    ensures { result ≡ has_escapes quote }
{
    match quote {
        Quote::Str => true,
        Quote::Char => true,
        Quote::Date => false,
        Quote::Color => false,
        Quote::File => false,
        Quote::Library => false,
    }
}

fn unclosed(quote: Quote) -> Option<Lexeme>
    ensures { result ≡ unclosed quote }
{
    match quote {
        Quote::Str => Some(Lexeme::OpenString),
        Quote::Char => None,
        Quote::Date => None,
        Quote::Color => None,
        Quote::File => Some(Lexeme::OpenString),
        Quote::Library => Some(Lexeme::OpenString),
    }
}

/// The state one unit on, in a text between quotes.
#[tactic(auto, unfolding(crate::specs::Lexeme::inside))]
fn quoted_step(quote: Quote, unit: u16) -> State
    ensures { (rest : List ℕ) → inside quote false (unit ∷ rest) ≡ after result rest }
{
    if unit == 10 {
        return State::Dead;
    }
    if unit == close_of(quote) {
        return State::Ended(Lexeme::Quoted(quote));
    }
    if has_escapes(quote) && unit == 92 {
        State::Skipping(quote)
    } else {
        State::Inside(quote)
    }
}

/// The state one unit on, behind the digits of a number.
#[tactic(auto, unfolding(crate::specs::Lexeme::whole))]
fn whole_step(unit: u16) -> State
    ensures { (rest : List ℕ) → whole (unit ∷ rest) ≡ after result rest }
{
    if is_digit(unit) {
        State::Whole
    } else if unit == 46 {
        State::Fraction
    } else if is_exponent_mark(unit) {
        State::Mark
    } else {
        State::Dead
    }
}

/// The state one unit on, behind the point of a number.
#[tactic(auto, unfolding(crate::specs::Lexeme::fraction))]
fn fraction_step(unit: u16) -> State
    ensures { (rest : List ℕ) → fraction (unit ∷ rest) ≡ after result rest }
{
    if is_digit(unit) {
        State::Fraction
    } else if is_exponent_mark(unit) {
        State::Mark
    } else {
        State::Dead
    }
}

/// The state one unit on, in a comment that may go over lines.
#[tactic(auto, unfolding(crate::specs::Lexeme::block))]
fn block_step(star: bool, unit: u16) -> State
    ensures { (rest : List ℕ) → block star (unit ∷ rest) ≡ after result rest }
{
    if star && unit == 47 {
        State::Ended(Lexeme::Blank)
    } else if unit == 42 {
        State::Star
    } else {
        State::Block
    }
}

/// The state one unit on, where units of one sort may follow.
#[tactic(auto, unfolding(crate::specs::Lexeme::only))]
fn word_step(unit: u16) -> State
    ensures { (rest : List ℕ) → only is_word_unit Name (unit ∷ rest) ≡ after result rest }
{
    if is_word_unit(unit) {
        State::Word
    } else {
        State::Dead
    }
}

/// The state one unit on, behind a first `D` or `C`.
fn marked_step(quote: Quote, unit: u16) -> State
    ensures { (rest : List ℕ) → marked quote (unit ∷ rest) ≡ after result rest }
{
    if unit == 39 {
        State::Inside(quote)
    } else {
        word_step(unit)
    }
}

/// The state one unit on, behind a first `0`.
fn zero_step(unit: u16) -> State
    ensures { (rest : List ℕ) → zero (unit ∷ rest) ≡ after result rest }
{
    if unit == 120 || unit == 88 {
        State::HexMark
    } else {
        whole_step(unit)
    }
}

/// The state one unit on, behind a first point.
fn point_step(unit: u16) -> State
    ensures { (rest : List ℕ) → point (unit ∷ rest) ≡ after result rest }
{
    if is_digit(unit) {
        State::Fraction
    } else {
        State::Two(46, unit)
    }
}

/// The state one unit on, where a digit of an exponent has to follow.
fn some_digit_step(unit: u16) -> State
    ensures { (rest : List ℕ) → some_only is_digit Double (unit ∷ rest) ≡ after result rest }
{
    if is_digit(unit) {
        State::Exponent
    } else {
        State::Dead
    }
}

/// The state one unit on, behind the mark of an exponent.
fn exponent_step(unit: u16) -> State
    ensures { (rest : List ℕ) → exponent (unit ∷ rest) ≡ after result rest }
{
    if unit == 43 || unit == 45 {
        State::ExponentSign
    } else {
        some_digit_step(unit)
    }
}

/// The state one unit on, in an exponent.
#[tactic(auto, unfolding(crate::specs::Lexeme::only))]
fn digit_step(unit: u16) -> State
    ensures { (rest : List ℕ) → only is_digit Double (unit ∷ rest) ≡ after result rest }
{
    if is_digit(unit) {
        State::Exponent
    } else {
        State::Dead
    }
}

/// The state one unit on, behind `0x`.
fn some_hex_step(unit: u16) -> State
    ensures { (rest : List ℕ) → some_only is_hex_digit Hexadecimal (unit ∷ rest) ≡ after result rest }
{
    if is_hex_digit(unit) {
        State::Hex
    } else {
        State::Dead
    }
}

/// The state one unit on, in a hexadecimal number.
#[tactic(auto, unfolding(crate::specs::Lexeme::only))]
fn hex_step(unit: u16) -> State
    ensures { (rest : List ℕ) → only is_hex_digit Hexadecimal (unit ∷ rest) ≡ after result rest }
{
    if is_hex_digit(unit) {
        State::Hex
    } else {
        State::Dead
    }
}

/// The state one unit on, behind a first `/`.
fn slash_step(unit: u16) -> State
    ensures { (rest : List ℕ) → slash (unit ∷ rest) ≡ after result rest }
{
    if unit == 47 {
        State::LineComment
    } else if unit == 42 {
        State::Block
    } else {
        State::Two(47, unit)
    }
}

/// The state one unit on, in a comment to the line's end.
#[tactic(auto, unfolding(crate::specs::Lexeme::only))]
fn line_step(unit: u16) -> State
    ensures { (rest : List ℕ) → only is_in_line Blank (unit ∷ rest) ≡ after result rest }
{
    if is_in_line(unit) {
        State::LineComment
    } else {
        State::Dead
    }
}

/// The state one unit on, where a line has to end.
fn feed_step(unit: u16) -> State
    ensures { (rest : List ℕ) → line_feed (unit ∷ rest) ≡ after result rest }
{
    if unit == 10 {
        State::Ended(Lexeme::Blank)
    } else {
        State::Dead
    }
}

/// The state one unit on, behind a `\\` that continues a directive.
fn continued_step(unit: u16) -> State
    ensures { (rest : List ℕ) → continued (unit ∷ rest) ≡ after result rest }
{
    if unit == 13 {
        State::ContinuedReturn
    } else {
        feed_step(unit)
    }
}

/// The state one unit on.
#[tactic(auto, unfolding(crate::specs::Lexeme::inside))]
pub fn step(state: State, unit: u16) -> State
    ensures { (rest : List ℕ) → after state (unit ∷ rest) ≡ after result rest }
{
    match state {
        State::Dead => State::Dead,
        State::Ended(_) => State::Dead,
        State::Word => word_step(unit),
        State::Marked(quote) => marked_step(quote, unit),
        State::Inside(quote) => quoted_step(quote, unit),
        State::Skipping(quote) => {
            if unit == 10 {
                State::Dead
            } else {
                State::Inside(quote)
            }
        }
        State::Zero => zero_step(unit),
        State::Whole => whole_step(unit),
        State::Point => point_step(unit),
        State::Fraction => fraction_step(unit),
        State::Mark => exponent_step(unit),
        State::ExponentSign => some_digit_step(unit),
        State::Exponent => digit_step(unit),
        State::HexMark => some_hex_step(unit),
        State::Hex => hex_step(unit),
        State::Slash => slash_step(unit),
        State::LineComment => line_step(unit),
        State::Block => block_step(false, unit),
        State::Star => block_step(true, unit),
        State::Continued => continued_step(unit),
        State::ContinuedReturn => feed_step(unit),
        State::One(a) => State::Two(a, unit),
        State::Two(a, b) => State::Three(a, b, unit),
        State::Three(_, _, _) => State::Dead,
    }
}

/// The sign that units are.
fn sign_of(units: &[u16]) -> Option<Lexeme>
    ensures { result ≡ sign_of units.now }
{
    match spelled_sign(units) {
        Some(sign) => Some(Lexeme::Sign(sign)),
        None => None,
    }
}

/// What the units read are, where they are a whole piece.
#[tactic(auto, unfolding(crate::specs::Lexeme::only, crate::specs::Lexeme::inside, crate::specs::Lexeme::whole, crate::specs::Lexeme::fraction, crate::specs::Lexeme::block))]
pub fn lexeme_at(state: State) -> Option<Lexeme>
    ensures { result ≡ after state [] }
{
    match state {
        State::Dead => None,
        State::Ended(what) => Some(what),
        State::Word => Some(Lexeme::Name),
        State::Marked(_) => Some(Lexeme::Name),
        State::Inside(quote) => unclosed(quote),
        State::Skipping(quote) => unclosed(quote),
        State::Zero => Some(Lexeme::Decimal),
        State::Whole => Some(Lexeme::Decimal),
        State::Point => sign_of(&[46]),
        State::Fraction => Some(Lexeme::Double),
        State::Mark => None,
        State::ExponentSign => None,
        State::Exponent => Some(Lexeme::Double),
        State::HexMark => None,
        State::Hex => Some(Lexeme::Hexadecimal),
        State::Slash => sign_of(&[47]),
        State::LineComment => Some(Lexeme::Blank),
        State::Block => Some(Lexeme::OpenComment),
        State::Star => Some(Lexeme::OpenComment),
        State::Continued => None,
        State::ContinuedReturn => None,
        State::One(a) => sign_of(&[a]),
        State::Two(a, b) => sign_of(&[a, b]),
        State::Three(a, b, c) => sign_of(&[a, b, c]),
    }
}

fn line_end(mode: Mode) -> Lexeme
    ensures { result ≡ line_end mode }
{
    match mode {
        Mode::Plain => Lexeme::Blank,
        Mode::Hash => Lexeme::LineEnd,
        Mode::Include => Lexeme::LineEnd,
        Mode::Directive => Lexeme::LineEnd,
    }
}

/// The state behind a first `\\`.
fn backslash(mode: Mode) -> State
    ensures { (rest : List ℕ) → backslash mode rest ≡ after result rest }
{
    match mode {
        Mode::Plain => State::Dead,
        Mode::Hash => State::Continued,
        Mode::Include => State::Continued,
        Mode::Directive => State::Continued,
    }
}

fn quotation(mode: Mode) -> Quote
    ensures { result ≡ quotation mode }
{
    match mode {
        Mode::Plain => Quote::Str,
        Mode::Hash => Quote::Str,
        Mode::Include => Quote::File,
        Mode::Directive => Quote::Str,
    }
}

/// The state behind a first `<`.
fn angle(mode: Mode) -> State
    ensures { (rest : List ℕ) → angle mode rest ≡ after result rest }
{
    match mode {
        Mode::Plain => State::One(60),
        Mode::Hash => State::One(60),
        Mode::Include => State::Inside(Quote::Library),
        Mode::Directive => State::One(60),
    }
}

/// The state behind the first unit of a piece.
#[tactic(auto, unfolding(crate::specs::Lexeme::lexeme))]
pub fn first(mode: Mode, unit: u16) -> State
    ensures { (rest : List ℕ) → lexeme mode (unit ∷ rest) ≡ after result rest }
{
    if unit == 68 {
        return State::Marked(Quote::Date);
    }
    if unit == 67 {
        return State::Marked(Quote::Color);
    }
    if is_letter(unit) {
        return State::Word;
    }
    if unit == 48 {
        return State::Zero;
    }
    if is_digit(unit) {
        return State::Whole;
    }
    if unit == 46 {
        return State::Point;
    }
    if unit == 34 {
        return State::Inside(quotation(mode));
    }
    if unit == 39 {
        return State::Inside(Quote::Char);
    }
    if unit == 47 {
        return State::Slash;
    }
    if unit == 60 {
        return angle(mode);
    }
    if unit == 10 {
        return State::Ended(line_end(mode));
    }
    if unit == 92 {
        return backslash(mode);
    }
    if is_blank(unit) {
        return State::Ended(Lexeme::Blank);
    }
    State::One(unit)
}

/// Whether no piece begins so.
fn is_dead(state: State) -> bool
    ensures { OnTrue result ((rest : List ℕ) → after state rest ≡ None) }
{
    matches!(state, State::Dead)
}

/// A walk over units, where the state stands at the place.
fn walk(text: &[u16], place: usize, start: State) -> Option<(usize, Lexeme)>
    requires { place + length text.now < 2 ^ 63 }
    ensures { result ≡ last_from place None (after start) text.now }
{
    let mut rest = text;
    let mut count = place;
    let mut state = start;
    let mut best = None;
    while let Some((unit, others)) = rest.split_first() {
        if is_dead(state) {
            return best;
        }
        best = better(count, lexeme_at(state), best);
        state = step(state, *unit);
        rest = others;
        count += 1;
    }
    better(count, lexeme_at(state), best)
}

fn better(
    count: usize,
    here: Option<Lexeme>,
    best: Option<(usize, Lexeme)>,
) -> Option<(usize, Lexeme)>
    ensures { result ≡ pick count here best }
{
    match here {
        Some(what) => Some((count, what)),
        None => best,
    }
}

/// The longest piece at the beginning of a text.
pub fn longest(mode: Mode, text: &[u16]) -> Option<(usize, Lexeme)>
    requires { length text.now ≤ most_units }
    ensures longest { Longest (lexeme mode) text.now result }
    ensures progress { IfSome result (λ found. (0 < found.0) × (found.0 ≤ length text.now)) }
{
    match text.split_first() {
        Some((unit, others)) => walk(others, 1, first(mode, *unit)),
        None => None,
    }
}
