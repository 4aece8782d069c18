//! The text of a format.
ghost use Rattle.std.specs.Prelude.{◌≡◌, [], ◌∷◌, IfOk, option_map};
ghost use Rattle.mql_meaning.specs.Formats.{form, format};
ghost use Rattle.native_formats.specs.Forms.{form_of};
ghost use Rattle.native_formats.specs.Pieces.{alone, conversion, first_part, part_of, piece_text, with_argument};

use crate::conversion::Conversion;
use crate::fields::in_width;
use crate::letter::Letter;
use crate::pieces::{Piece, Step};
use crate::reading::form;
use crate::writing::written;
use fx8::{FixFault, ItemList, OutOfMemory, Text};
use mql_mean::Value;
use std::alloc::Global;

/// A conversion and its argument, which it takes from those that are left.
fn with_argument<'a>(form: Conversion, rest: &'a [u16], values: &'a [Value]) -> Step<'a>
    ensures { part_of result ≡ with_argument (form_of form rest.now) values.now }
{
    match values {
        [] => Step {
            piece: Piece::Nothing,
            rest,
            values,
        },
        [value, others @ ..] => Step {
            piece: Piece::Argument(form, value),
            rest,
            values: others,
        },
    }
}

/// A unit that stands as it is.
fn alone<'a>(unit: u16, rest: &'a [u16], values: &'a [Value]) -> Step<'a>
    ensures { part_of result ≡ alone unit rest.now values.now }
{
    Step {
        piece: Piece::Unit(unit),
        rest,
        values,
    }
}

/// A `%` and what follows: a conversion, or else the `%` as it is.
fn conversion<'a>(unit: u16, rest: &'a [u16], values: &'a [Value]) -> Step<'a>
    ensures { part_of result ≡ conversion unit rest.now values.now (form rest.now) }
{
    match form(rest) {
        None => alone(unit, rest, values),
        Some((form, behind)) => match form.letter {
            Letter::Percent => Step {
                piece: Piece::Percent(form),
                rest: behind,
                values,
            },
            _ => with_argument(form, behind, values),
        },
    }
}

/// The first piece of a format; `None` exactly where the format is empty.
fn first_part<'a>(text: &'a [u16], values: &'a [Value]) -> Option<Step<'a>>
    ensures { option_map part_of result ≡ first_part text.now values.now }
{
    let [unit, rest @ ..] = text else {
        return None;
    };
    if *unit == 37 {
        Some(conversion(*unit, rest, values))
    } else {
        Some(alone(*unit, rest, values))
    }
}

/// A unit as a text.
fn unit_text(alloc: Global, unit: u16) -> Result<Text, OutOfMemory>
    ensures { IfOk result (λ t. t ≡ unit ∷ []) }
{
    ItemList::from_slice(alloc, &[unit])
}

/// The text of a piece.
fn piece_text(alloc: Global, piece: Piece<'_>) -> Result<Result<Text, FixFault>, OutOfMemory>
    ensures { IfOk result (λ t. t ≡ piece_text piece.entry) }
{
    match piece {
        Piece::Unit(unit) => Ok(Ok(unit_text(alloc, unit)?)),
        Piece::Percent(form) => Ok(Ok(in_width(alloc, form, false, &[], &[37])?)),
        Piece::Nothing => Ok(Ok(ItemList::new(alloc))),
        Piece::Argument(form, value) => written(alloc, form, value),
    }
}

/// The text of a format with arguments: what is no conversion stands as it is, and a conversion without an
/// argument is empty. A fault exactly where a whole number that is to be written as a `double` is none.
pub fn format(
    alloc: Global,
    text: &[u16],
    values: &[Value],
) -> Result<Result<Text, FixFault>, OutOfMemory>
    ensures { IfOk result (λ t. t ≡ format text.now values.now) }
{
    let mut out = ItemList::new(alloc);
    let mut rest = text;
    let mut left = values;
    for i in 0..text.len() {
        let Some(step) = first_part(rest, left) else {
            return Ok(Ok(out));
        };
        match piece_text(alloc, step.piece)? {
            Ok(written) => out.append(written)?,
            Err(fault) => return Ok(Err(fault)),
        }
        rest = step.rest;
        left = step.values;
    }
    out.extend_from_slice(rest)?;
    Ok(Ok(out))
}
