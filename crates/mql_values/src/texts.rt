//! Operators on constants that are texts.
ghost use Rattle.std.specs.Prelude.{◌≡◌, IfOk, pos, option_map, if◌then◌else◌};
ghost use Rattle.mql_meaning.specs.Operators as operators;
ghost use Rattle.native_conversions.specs.Conversions.{a_string};
ghost use Rattle.mql_values.specs.Values as values;

use fx8::{IntKind, IntOperator, OutOfMemory, Text};
use mql_mean::Value;
use mql_syntax::BinaryOperator;
use mql_typed::int_operator;
use native_conversions::{a_string, text_of_value};
use std::alloc::Global;

fn is_text(v: &Value) -> bool
    ensures { result ≡ values.is_text v.now }
{
    match v {
        Value::Str(_) => true,
        Value::Num(..) | Value::Dbl(_) | Value::Ptr(_) | Value::Arr(_) | Value::Rec(_) => false,
    }
}

fn pair(a: Option<Text>, b: Option<Text>) -> Option<(Text, Text)>
    ensures { result ≡ values.pair a b }
{
    match a {
        None => None,
        Some(a) => match b {
            None => None,
            Some(b) => Some((a, b)),
        },
    }
}

/// Two constants as texts, where one of them is a text.
fn both_texts(alloc: Global, a: &Value, b: &Value) -> Result<Option<(Text, Text)>, OutOfMemory>
    ensures { IfOk result (λ r. r ≡ values.texts a.now b.now) }
{
    if !is_text(a) && !is_text(b) {
        return Ok(None);
    }
    let first = text_of_value(alloc, a)?;
    let second = text_of_value(alloc, b)?;
    Ok(pair(first, second))
}

/// Which of two texts comes first by their units: -1, 0 where they are equal, 1.
#[tactic(auto, using(crate::proofs::Orders::same_heads, crate::proofs::Orders::less_heads, crate::proofs::Orders::more_heads, crate::proofs::Orders::longer, crate::proofs::Orders::shorter, crate::proofs::Orders::both_end))]
fn order(s: &[u16], t: &[u16]) -> i32
    ensures { result ≡ operators.order s.now t.now }
{
    let mut left = s;
    let mut right = t;
    while let [x, xs @ ..] = left {
        match right {
            [] => return 1,
            [y, ys @ ..] => {
                if *x < *y {
                    return -1;
                }
                if *y < *x {
                    return 1;
                }
                left = xs;
                right = ys;
            }
        }
    }
    if right.is_empty() { 0 } else { -1 }
}

/// Whether two numbers compare so.
fn compared(o: IntOperator, x: i32) -> Option<bool>
    ensures { result ≡ operators.compared o x (pos 0) }
{
    match o {
        IntOperator::Less => Some(x < 0),
        IntOperator::LessOrEqual => Some(x <= 0),
        IntOperator::Greater => Some(0 < x),
        IntOperator::GreaterOrEqual => Some(0 <= x),
        IntOperator::Equal => Some(x == 0),
        IntOperator::NotEqual => Some(x != 0),
        IntOperator::Add
        | IntOperator::Subtract
        | IntOperator::Multiply
        | IntOperator::Divide
        | IntOperator::Remainder
        | IntOperator::ShiftLeft
        | IntOperator::ShiftRight
        | IntOperator::BitAnd
        | IntOperator::BitOr
        | IntOperator::BitXor => None,
    }
}

fn bool_of(holds: bool) -> Value
    ensures { result ≡ values.bool holds }
{
    Value::Num(IntKind::Bool, if holds { 1 } else { 0 })
}

fn a_bool(holds: Option<bool>) -> Option<Value>
    ensures { result ≡ option_map values.bool holds }
{
    match holds {
        None => None,
        Some(holds) => Some(bool_of(holds)),
    }
}

/// An operator on texts.
fn on_texts(o: IntOperator, s: Text, t: Text) -> Result<Option<Value>, OutOfMemory>
    ensures { IfOk result (λ v. v ≡ values.on_texts o s t) }
{
    match o {
        IntOperator::Add => {
            let mut text = s;
            text.append(t)?;
            Ok(a_string(text))
        }
        IntOperator::Subtract
        | IntOperator::Multiply
        | IntOperator::Divide
        | IntOperator::Remainder
        | IntOperator::ShiftLeft
        | IntOperator::ShiftRight
        | IntOperator::BitAnd
        | IntOperator::BitOr
        | IntOperator::BitXor
        | IntOperator::Less
        | IntOperator::LessOrEqual
        | IntOperator::Greater
        | IntOperator::GreaterOrEqual
        | IntOperator::Equal
        | IntOperator::NotEqual => Ok(a_bool(compared(o, order(s.as_slice(), t.as_slice())))),
    }
}

/// What an operator makes of two constants of which one is a text.
#[tactic(auto, unfolding(crate::specs::Values::joined))]
pub(crate) fn joined(
    alloc: Global,
    o: BinaryOperator,
    a: &Value,
    b: &Value,
) -> Result<Option<Value>, OutOfMemory>
    ensures { IfOk result (λ v. v ≡ values.joined o a.now b.now) }
{
    let Some(o) = int_operator(o) else {
        return Ok(None);
    };
    let found = both_texts(alloc, a, b)?;
    match found {
        None => Ok(None),
        Some((s, t)) => on_texts(o, s, t),
    }
}

/// Whether a constant holds as a condition, if it is a number.
fn condition(v: &Value) -> Option<bool>
    ensures { result ≡ values.condition v.now }
{
    match v {
        Value::Num(_, x) => Some(*x != 0),
        Value::Dbl(x) => Some(x.whole() != 0),
        Value::Str(_) | Value::Ptr(_) | Value::Arr(_) | Value::Rec(_) => None,
    }
}

/// One of two texts.
fn either_text(holds: bool, both: (Text, Text)) -> Option<Value>
    ensures { result ≡ a_string (if holds then both.0 else both.1) }
{
    let (s, t) = both;
    if holds { a_string(s) } else { a_string(t) }
}

/// What `test ? a : b` is, where a or b is a text.
#[tactic(auto, unfolding(crate::specs::Values::chosen))]
pub(crate) fn chosen(
    alloc: Global,
    test: &Value,
    a: &Value,
    b: &Value,
) -> Result<Option<Value>, OutOfMemory>
    ensures { IfOk result (λ v. v ≡ values.chosen test.now a.now b.now) }
{
    let Some(holds) = condition(test) else {
        return Ok(None);
    };
    let found = both_texts(alloc, a, b)?;
    match found {
        None => Ok(None),
        Some(both) => Ok(either_text(holds, both)),
    }
}
