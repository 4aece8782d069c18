//! The journal of prints.
ghost use Rattle.std.specs.Prelude.{◌≡◌, ◌++◌, IfOk, OnOk};
ghost use Rattle.std.specs.List.{flat_map};
ghost use Rattle.mql_meaning.specs.Texts as texts;
ghost use Rattle.tester_world.specs.Journal.{shown_byte, shown_text, line_bytes};

use fx8::{OutOfMemory, Text, Text8};
use mql_mean::Value;
use native_conversions::text_of_value;
use std::alloc::Global;

/// The most bytes that the journal of prints of a pass may take: those of the lines' texts in a report, and one
/// more for each line.
pub const JOURNAL_LIMIT: u64 = 1_048_576;

fn push_byte(text: &mut Text8, byte: u8) -> Result<(), OutOfMemory>
    ensures { OnOk result (text.new ≡ text.old ++ shown_byte byte) }
{
    match byte {
        b'\n' => text.extend_from_slice(b"\\n"),
        b'\r' => text.extend_from_slice(b"\\r"),
        _ => text.push(byte),
    }
}

fn push_bytes(text: &mut Text8, bytes: &[u8]) -> Result<(), OutOfMemory>
    ensures { OnOk result (text.new ≡ text.old ++ flat_map shown_byte bytes.now) }
{
    for byte in bytes {
        push_byte(text, *byte)?;
    }
    Ok(())
}

/// Adds a printed text as a report shows it: UTF-8 on one line, a line feed as `\n`, a carriage return as `\r`,
/// a surrogate without its partner as U+FFFD.
#[tactic(auto, unfolding(crate::specs::Journal::shown_text))]
pub fn push_shown(alloc: Global, text: &mut Text8, units: &[u16]) -> Result<(), OutOfMemory>
    ensures { OnOk result (text.new ≡ text.old ++ shown_text units.now) }
{
    let characters = String::from_utf16_lossy(alloc, units)?;
    push_bytes(text, characters.as_bytes())
}

/// The bytes that a line of this text takes of the journal.
pub(crate) fn line_bytes(alloc: Global, text: &Text) -> Result<u64, OutOfMemory>
    ensures { IfOk result (λ bytes. bytes ≡ line_bytes text.now) }
{
    let mut shown = Text8::new(alloc);
    push_shown(alloc, &mut shown, text.as_slice())?;
    match shown.len().checked_add(1) {
        Some(bytes) => Ok(bytes),
        None => Err(OutOfMemory),
    }
}

/// What Print writes of its arguments, one behind the other (MQL5 Reference, Common Functions, Print); `None`
/// where one has no text, which typing excludes.
pub(crate) fn printed(alloc: Global, values: &[Value]) -> Result<Option<Text>, OutOfMemory>
    ensures { IfOk result (λ text. text ≡ texts.printed values.now) }
{
    let [value, rest @ ..] = values else {
        return Ok(Some(Text::new(alloc)));
    };
    let Some(text) = text_of_value(alloc, value)? else {
        return Ok(None);
    };
    let Some(more) = printed(alloc, rest)? else {
        return Ok(None);
    };
    let mut text = text;
    text.append(more)?;
    Ok(Some(text))
}
