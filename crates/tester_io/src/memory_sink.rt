//! A sink in memory, of which chosen writings fail.
ghost use Rattle.std.specs.Prelude.{◌≡◌, ℕ, ◌+◌, ◌-◌, ◌^◌, ◌<◌, ◌≤◌, min, ◌++◌, [], List, length, take, Option, Some, OnOk, OnErr, IfOk, IsErrOf, IsTrue, ◌↔◌};
ghost use Rattle.tester_io.specs.Outside.{WhereTold, Counts, AtMostOnce};
ghost use Rattle.tester_io.specs.Memory.{is_to_fail};
ghost use Rattle.tester_io.specs.InMemory.{sink_seen_of, written, writes_made, writes_to_fail, sink_failures, taken};

use crate::shelf::Turns;
use crate::{Sink, WriteError};
use fx8::{Numbers, OutOfMemory, Text8};
use std::alloc::Global;

/// The most bytes that a sink in memory takes at once.
const WRITE_LIMIT: usize = 64;

/// Adds the beginning of a piece that is taken at once. A refused call changes nothing.
pub(crate) fn accept(bytes: &mut Text8, piece: &[u8]) -> Result<usize, OutOfMemory>
    ensures count { IfOk result (λ k. k ≡ taken piece.now) }
    ensures ok { OnOk result (bytes.new ≡ bytes.old ++ take (taken piece.now) piece.now) }
    ensures err { OnErr result (bytes.new ≡ bytes.old) }
{
    let count = WRITE_LIMIT.min(piece.len());
    bytes.extend_from_slice(&piece[..count])?;
    Ok(count)
}

/// A sink in memory. It tells what it has, and takes at most 64 bytes at once. Its writings are numbered from
/// 0, and those whose numbers are on a list fail.
#[derive(Debug, Drop)]
pub struct MemSink {
    bytes: Text8,
    turns: Turns,
    write_faults: u64,
}

impl MemSink {
    /// An empty sink, of which the writings of these numbers are to fail.
    pub fn new(alloc: Global, fails: Numbers) -> MemSink
        ensures written { written result ≡ [] }
        ensures calls { writes_made result ≡ 0 }
        ensures fails { writes_to_fail result ≡ fails }
        ensures write_faults { sink_failures result ≡ 0 }
    {
        MemSink {
            bytes: Text8::new(alloc),
            turns: Turns { fails, calls: 0 },
            write_faults: 0,
        }
    }

    /// What the sink has.
    pub fn bytes(&self) -> &Text8
        ensures { result.now ≡ written self.now }
    {
        &self.bytes
    }
}

impl Sink for MemSink {
    ghost seen = { sink_seen_of };

    fn write(&mut self, piece: &[u8]) -> Result<usize, WriteError>
        ensures count { IfOk result (λ k. k ≡ taken piece.now) }
        ensures within { IfOk result (λ k. k ≤ length piece.now) }
        ensures progress { IfOk result (λ k. 0 < length piece.now → 1 ≤ k) }
        ensures appended { IfOk result (λ k. written self.new ≡ written self.old ++ take k piece.now) }
        ensures refused { OnErr result (written self.new ≡ written self.old) }
        ensures answer { IsErrOf result WriteError.Failed
            ↔ IsTrue (is_to_fail (writes_to_fail self.old) (writes_made self.old)) }
        ensures calls { writes_made self.new ≡ min (writes_made self.old + 1) (2 ^ 64 - 1) }
        ensures fails { writes_to_fail self.new ≡ writes_to_fail self.old }
        ensures write_faults { Counts (IsErrOf result WriteError.Failed) (sink_failures self.old)
            (sink_failures self.new) }
        ensures write_faults_once { AtMostOnce (sink_failures self.old) (sink_failures self.new) }
    {
        if self.turns.take() {
            self.write_faults = self.write_faults.saturating_add(1);
            return Err(WriteError::Failed);
        }
        let count = accept(&mut self.bytes, piece)?;
        Ok(count)
    }
}
