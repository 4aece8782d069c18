//! How a run of a command ends, and the line that tells it.
ghost use Rattle.std.specs.Prelude.{◌≡◌, [], ◌++◌, length, IfOk, OnOk, OnErr};
ghost use Rattle.std.specs.Fmt.{decimal};
ghost use Rattle.tester_answer.specs.Texts.{status_number, fields_line, fault_line, source_fields, status_fields};

use crate::text::{push_field, push_number_field};
use fx8::{OutOfMemory, Text8};
use mql_source::SourceFault;
use std::alloc::Global;

/// How a run of a command ends. The program exits with the number of the status.
#[derive(Debug, Drop)]
pub enum Status {
    /// Every input was read to its end, and the text was written whole.
    Done,
    /// The words break this usage rule.
    Usage(u8),
    /// A source breaks a rule.
    Source(SourceFault),
    /// A key of the settings breaks a rule.
    Settings { rule: u8, key: Text8 },
    /// A row of a price file breaks a rule.
    Prices { file: Text8, row: u32, rule: u8 },
    /// The bytes of a code file break a rule at a place.
    CodeFile { rule: u8, place: u64 },
    /// An input breaks a rule of the grid.
    Grid { rule: u8, input: Text8 },
    /// No file has this name.
    Absent(Text8),
    /// Reading this file failed.
    ReadFault(Text8),
    /// Writing failed.
    WriteFault,
    /// This file is longer than its limit.
    TooLarge(Text8),
    /// No memory was found.
    OutOfMemory,
}

impl Status {
    /// The number of the status, with which the program exits.
    pub fn number(&self) -> u8
        ensures { result ≡ status_number self.now }
    {
        match self {
            Status::Done => 0,
            Status::Usage(_) => 1,
            Status::Source(_) => 2,
            Status::Settings { .. } => 3,
            Status::Prices { .. } => 4,
            Status::CodeFile { .. } => 5,
            Status::Grid { .. } => 6,
            Status::Absent(_) => 7,
            Status::ReadFault(_) => 8,
            Status::WriteFault => 9,
            Status::TooLarge(_) => 10,
            Status::OutOfMemory => 11,
        }
    }
}

fn push_source_fault(line: &mut Text8, fault: &SourceFault) -> Result<(), OutOfMemory>
    ensures { OnOk result (line.new ≡ line.old ++ fields_line (source_fields fault.now)) }
{
    push_number_field(line, u64::from(fault.stage))?;
    push_number_field(line, u64::from(fault.rule))?;
    push_field(line, fault.file.as_slice())?;
    push_number_field(line, u64::from(fault.line))
}

fn push_status_fields(line: &mut Text8, status: &Status) -> Result<(), OutOfMemory>
    ensures { OnOk result (line.new ≡ line.old ++ fields_line (status_fields status.now)) }
{
    match status {
        Status::Done | Status::WriteFault | Status::OutOfMemory => Ok(()),
        Status::Usage(rule) => push_number_field(line, u64::from(*rule)),
        Status::Source(fault) => push_source_fault(line, fault),
        Status::Settings { rule, key } => {
            push_number_field(line, u64::from(*rule))?;
            push_field(line, key.as_slice())
        }
        Status::Prices { file, row, rule } => {
            push_field(line, file.as_slice())?;
            push_number_field(line, u64::from(*row))?;
            push_number_field(line, u64::from(*rule))
        }
        Status::CodeFile { rule, place } => {
            push_number_field(line, u64::from(*rule))?;
            push_number_field(line, *place)
        }
        Status::Grid { rule, input } => {
            push_number_field(line, u64::from(*rule))?;
            push_field(line, input.as_slice())
        }
        Status::Absent(name) | Status::ReadFault(name) | Status::TooLarge(name) => push_field(
            line,
            name.as_slice(),
        ),
    }
}

/// The line that standard error gets for a status: `error N` and the status's fields, each after a blank, and
/// a line feed; the empty text for `Done`.
pub fn fault_text(alloc: Global, status: &Status) -> Result<Text8, OutOfMemory>
    ensures { IfOk result (λ text. text ≡ fault_line status.now) }
{
    let mut line = Text8::new(alloc);
    if let Status::Done = status {
        return Ok(line);
    }
    line.extend_from_slice(b"error")?;
    push_number_field(&mut line, u64::from(status.number()))?;
    push_status_fields(&mut line, status)?;
    line.push(b'\n')?;
    Ok(line)
}

impl From<OutOfMemory> for Status {
    ghost use Rattle.std.specs.Prelude.{◌≡◌};
    ghost use Rattle.tester_answer.specs.declared.status.Status.TheVariants as status;

    ghost from_gives = { λ _ given. given ≡ status.OutOfMemory };

    fn from(_error: OutOfMemory) -> Status {
        Status::OutOfMemory
    }
}
