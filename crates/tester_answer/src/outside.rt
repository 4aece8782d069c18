//! Reading and writing, with the status that each fault gives.
ghost use Rattle.std.specs.Prelude.{◌≡◌, ◌++◌, ◌≤◌, length, take, drop, Some, ℕ, IfOk, IfErr, OnOk, OnErr, IsErrOf, MatchResult};
ghost use Rattle.tester_io.specs.Outside.{WhereTold, Rose};
ghost use Rattle.tester_answer.specs.Clauses.{OnlyRead, IsReading, Gained, ReadingRefused};
ghost use Rattle.tester_answer.specs.Clauses.{FaultStatus};

use crate::status::Status;
use fx8::Text8;
use std::alloc::Global;
use tester_io::{FileFault, Files, Sink, WriteError};

// The status of a fault of reading; no memory may be found for the name.
fn fault_status(alloc: Global, name: &Text8, fault: FileFault) -> Status
    ensures { FaultStatus name.now fault result }
{
    let Ok(name) = Text8::from_slice(alloc, name.as_slice()) else {
        return Status::OutOfMemory;
    };
    match fault {
        FileFault::Absent => Status::Absent(name),
        FileFault::Failed => Status::ReadFault(name),
        FileFault::TooLarge => Status::TooLarge(name),
        FileFault::OutOfMemory => Status::OutOfMemory,
    }
}

/// Reads a file of at most `limit` bytes.
pub fn read<F: Files>(
    alloc: Global,
    files: &mut F,
    name: &Text8,
    limit: u64,
) -> Result<Text8, Status>
    ensures only_read { OnlyRead (F.seen files.old) (F.seen files.new) }
    ensures read { IfOk result (IsReading name.now limit (F.seen files.old).told) }
    ensures refused { IfErr result (ReadingRefused name.now limit (F.seen files.old) (F.seen files.new)) }
{
    match files.read_all(name, limit) {
        Ok(bytes) => Ok(bytes),
        Err(fault) => Err(fault_status(alloc, name, fault)),
    }
}

/// Writes a text to its end.
pub fn write_whole<S: Sink>(out: &mut S, text: &[u8]) -> Result<(), WriteError>
    ensures ok { OnOk result (Gained text.now (S.seen out.old) (S.seen out.new)) }
    ensures err { OnErr result ((k : ℕ) × Gained (take k text.now) (S.seen out.old) (S.seen out.new)) }
    ensures failed { IsErrOf result WriteError.Failed
        → Rose (S.seen out.old).write_faults (S.seen out.new).write_faults }
{
    let mut place = 0;
    while place < text.len() {
        let written = out.write(&text[place..])?;
        place += written;
    }
    Ok(())
}
