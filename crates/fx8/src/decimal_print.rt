//! The shortest decimal text of a double.
ghost use Rattle.std.specs.Prelude.{◌≡◌, ◌<◌, ◌≤◌, ◌^◌, ◌++◌, ◌∷◌, ◌%◌, ◌/◌, [], length, take, decimal, OnOk, OnErr, unsigned_abs, pos, ◌+◌, ◌*◌, Some};
ghost use Rattle.fx8.specs.Rounding.{is_below_zero};
ghost use Rattle.fx8.specs.Decimals.{decimals, sign_text, text_of, double_of_text};

use crate::fix8::unit_of_place;
use crate::{Fix8, OutOfMemory, Text8};
use itoa::Buffer;

/// Appends `-` below zero.
fn write_sign(units: i64, out: &mut Text8) -> Result<(), OutOfMemory>
    ensures ok { OnOk result (out.new ≡ out.old ++ sign_text units) }
    ensures kept { take (length out.old) out.new ≡ out.old }
{
    if units < 0 {
        out.push(b'-')?;
    }
    Ok(())
}

/// Appends a whole number.
fn write_whole(number: u64, out: &mut Text8) -> Result<(), OutOfMemory>
    ensures ok { OnOk result (out.new ≡ out.old ++ decimal number) }
    ensures kept { take (length out.old) out.new ≡ out.old }
{
    let mut buffer = Buffer::new();
    out.extend_from_slice(buffer.format(number).as_bytes())
}

/// Appends a point.
fn write_point(out: &mut Text8) -> Result<(), OutOfMemory>
    ensures ok { OnOk result (out.new ≡ out.old ++ 46 ∷ []) }
    ensures kept { take (length out.old) out.new ≡ out.old }
{
    out.push(b'.')
}

/// The digit for so many units of its place.
fn digit(rest: u64, unit: u64) -> u8
    requires some { 0 < unit }
    requires few { rest < unit * 10 }
    ensures { result ≡ 48 + rest / unit }
{
    b'0' + (rest / unit) as u8
}

/// Appends the decimals of so many units of 10^-8, at least one.
fn write_decimals(units: u64, out: &mut Text8) -> Result<(), OutOfMemory>
    requires { units < 10 ^ 8 }
    ensures ok { OnOk result (out.new ≡ out.old ++ decimals 8 units) }
    ensures kept { take (length out.old) out.new ≡ out.old }
{
    let mut rest = units;
    for place in 1..9u8 {
        let unit = unit_of_place(place);
        out.push(digit(rest, unit))?;
        rest %= unit;
        if rest == 0 {
            return Ok(());
        }
    }
    Ok(())
}

/// Appends the text of a number; where there is no memory some of it may be there.
#[tactic(auto, using(crate::proofs::Written::text_joined))]
fn write_text(units: i64, out: &mut Text8) -> Result<(), OutOfMemory>
    ensures ok { OnOk result (out.new ≡ out.old ++ text_of units) }
    ensures kept { take (length out.old) out.new ≡ out.old }
{
    let size = units.unsigned_abs();
    write_sign(units, out)?;
    write_whole(size / 100_000_000, out)?;
    write_point(out)?;
    write_decimals(size % 100_000_000, out)?;
    Ok(())
}

impl Fix8 {
    /// Appends the shortest decimal text of the number with at least one decimal, which `of_text` reads to
    /// the number. A refused call changes nothing.
    #[tactic(auto, using(crate::proofs::ReadBack::read_back))]
    pub fn print(self, out: &mut Text8) -> Result<(), OutOfMemory>
        ensures ok { OnOk result (out.new ≡ out.old ++ text_of self) }
        ensures err { OnErr result (out.new ≡ out.old) }
        ensures read_back { double_of_text (text_of self) ≡ Some self }
    {
        let before = out.len();
        let written = write_text(self.units(), out);
        if written.is_err() {
            out.truncate(before);
        }
        written
    }
}
