//! What conversions make of arguments.
ghost use Rattle.std.specs.Prelude.{◌≡◌, ◌≤◌, [], ◌∷◌, decimal, false, unsigned_abs, IfOk};
ghost use Rattle.mql_mean.specs.declared.value.Value.{out-Value};
ghost use Rattle.mql_meaning.specs.Formats.{cut, hex, in_width, integer, precision_or, real_if, string_at, written};
ghost use Rattle.native_formats.specs.Forms.{form_of, signed, ulong, ushort};

use crate::arguments::{double_at, long_of, string_at, ulong_of, ushort_of};
use crate::conversion::Conversion;
use crate::fields::{cut, hex, in_width, integer, real, sign};
use crate::letter::Letter;
use fx8::{Fix8, FixFault, OutOfMemory, Text};
use itoa::Buffer;
use mql_mean::Value;
use std::alloc::Global;

/// Bytes as 16-bit units.
fn widened(alloc: Global, bytes: &[u8]) -> Result<Text, OutOfMemory>
    ensures { IfOk result (λ t. t ≡ bytes.now) }
{
    let mut text = Text::new(alloc);
    for byte in bytes {
        text.push(u16::from(*byte))?;
    }
    Ok(text)
}

/// A whole number in decimal.
fn decimal(alloc: Global, number: u128) -> Result<Text, OutOfMemory>
    ensures { IfOk result (λ t. t ≡ decimal number) }
{
    let mut buffer = Buffer::new();
    widened(alloc, buffer.format(number).as_bytes())
}

/// A `long` in decimal.
fn signed(alloc: Global, form: Conversion, value: &Value) -> Result<Text, OutOfMemory>
    ensures { IfOk result (λ t. t ≡ signed (form_of form []) value.now) }
{
    let number = long_of(value);
    let sign = sign(alloc, form, number)?;
    let digits = decimal(alloc, number.unsigned_abs())?;
    integer(alloc, form, sign.as_slice(), digits.as_slice())
}

/// A `ulong` in decimal.
fn unsigned(alloc: Global, form: Conversion, value: &Value) -> Result<Text, OutOfMemory>
    ensures { IfOk result (λ t. t ≡ integer (form_of form []) [] (decimal (ulong value.now))) }
{
    let digits = decimal(alloc, ulong_of(value) as u128)?;
    integer(alloc, form, &[], digits.as_slice())
}

/// A `ulong` to the base of 16, with a first letter for ten.
fn sixteens(alloc: Global, form: Conversion, ten: u16, value: &Value) -> Result<Text, OutOfMemory>
    requires { ten ≤ 1000 }
    ensures { IfOk result (λ t. t ≡ integer (form_of form []) [] (hex 16 ten (ulong value.now) [])) }
{
    let digits = hex(alloc, ten, ulong_of(value))?;
    integer(alloc, form, &[], digits.as_slice())
}

/// A `ushort` as a unit.
fn character(alloc: Global, form: Conversion, value: &Value) -> Result<Text, OutOfMemory>
    ensures { IfOk result (λ t. t ≡ in_width (form_of form []) false [] (ushort value.now ∷ [])) }
{
    in_width(alloc, form, false, &[], &[ushort_of(value)])
}

/// A text, of which the precision says how much stands.
fn text_cut(alloc: Global, form: Conversion, value: &Value) -> Result<Text, OutOfMemory>
    ensures { IfOk result (λ t. t ≡
        in_width (form_of form []) false [] (cut form.precision (string_at (out-Value value.now)))) }
{
    let text = string_at(alloc, value)?;
    in_width(
        alloc,
        form,
        false,
        &[],
        cut(text.as_slice(), form.precision),
    )
}

/// How many decimals a `double` is written with: 6 where none are said.
fn decimals_of(form: Conversion) -> u8
    ensures value { result ≡ precision_or 6 form.precision }
    ensures few { result ≤ 8 }
{
    match form.precision {
        None => 6,
        Some(digits) => digits,
    }
}

/// A `double` with its decimals, where there is one.
fn real_if(
    alloc: Global,
    form: Conversion,
    number: Result<Fix8, FixFault>,
) -> Result<Result<Text, FixFault>, OutOfMemory>
    ensures { IfOk result (λ t. t ≡ real_if (form_of form []) number) }
{
    match number {
        Ok(number) => Ok(Ok(real(alloc, form, decimals_of(form), number)?)),
        Err(fault) => Ok(Err(fault)),
    }
}

/// What a conversion makes of an argument; a fault exactly where a whole number that is to be written as a
/// `double` is none.
pub fn written(
    alloc: Global,
    form: Conversion,
    value: &Value,
) -> Result<Result<Text, FixFault>, OutOfMemory>
    ensures { IfOk result (λ t. t ≡ written (form_of form []) value.now) }
{
    match form.letter {
        Letter::D | Letter::I => Ok(Ok(signed(alloc, form, value)?)),
        Letter::U => Ok(Ok(unsigned(alloc, form, value)?)),
        Letter::SmallX => Ok(Ok(sixteens(alloc, form, 97, value)?)),
        Letter::CapitalX => Ok(Ok(sixteens(alloc, form, 65, value)?)),
        Letter::C => Ok(Ok(character(alloc, form, value)?)),
        Letter::S => Ok(Ok(text_cut(alloc, form, value)?)),
        Letter::F | Letter::Percent => real_if(alloc, form, double_at(alloc, value)?),
    }
}
