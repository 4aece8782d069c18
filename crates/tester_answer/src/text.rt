//! Pieces of the texts that are written.
ghost use Rattle.std.specs.Prelude.{◌≡◌, [], ◌∷◌, ◌++◌, ◌+◌, ◌/◌, ◌%◌, ◌<◌, length, OnOk};
ghost use Rattle.std.specs.Fmt.{decimal};

use fx8::{OutOfMemory, Text8};
use std::alloc::Global;

/// Adds a blank and a text.
pub fn push_field(line: &mut Text8, text: &[u8]) -> Result<(), OutOfMemory>
    ensures { OnOk result (line.new ≡ line.old ++ 32 ∷ text.now) }
{
    line.push(b' ')?;
    line.extend_from_slice(text)
}

/// Adds a number in decimal.
pub fn push_number(line: &mut Text8, number: u64) -> Result<(), OutOfMemory>
    ensures { OnOk result (line.new ≡ line.old ++ decimal number) }
{
    let mut buffer = itoa::Buffer::new();
    line.extend_from_slice(buffer.format(number).as_bytes())
}

/// Adds a blank and a number in decimal.
pub fn push_number_field(line: &mut Text8, number: u64) -> Result<(), OutOfMemory>
    ensures { OnOk result (line.new ≡ line.old ++ 32 ∷ decimal number) }
{
    line.push(b' ')?;
    push_number(line, number)
}
