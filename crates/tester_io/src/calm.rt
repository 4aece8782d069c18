//! Files and a sink in memory that never fail.
ghost use Rattle.std.specs.Prelude.{◌≡◌, ℕ, ◌<◌, ◌≤◌, ◌++◌, [], List, length, take, Option, Some, None, OnOk, OnErr, IfOk, IsErrOf};
ghost use Rattle.std.specs.Option.{option_copied};
ghost use Rattle.tester_io.specs.Outside.{holding, empty, CutShort, WhereTold, Counts, AtMostOnce};
ghost use Rattle.tester_io.specs.Memory.{reading, Gives};
ghost use Rattle.tester_io.specs.InMemory.{calm_seen_of, calm_sink_seen_of, calm_contents, calm_absents, calm_oversizes, calm_written, taken};

use crate::memory_sink::accept;
use crate::shelf::Shelf;
use crate::{FileFault, Files, Sink, WriteError};
use fx8::{OutOfMemory, Text8};
use std::alloc::Global;

/// Files in memory of which no call fails. They tell what they hold, and count what they refuse for it.
#[derive(Debug, Drop)]
pub struct CalmFiles {
    shelf: Shelf,
}

impl CalmFiles {
    /// Files that hold nothing.
    pub fn new(alloc: Global) -> CalmFiles
        ensures contents { calm_contents result ≡ empty }
        ensures absents { calm_absents result ≡ 0 }
        ensures oversizes { calm_oversizes result ≡ 0 }
    {
        CalmFiles {
            shelf: Shelf::new(alloc),
        }
    }

    /// Gives a file its bytes. This is no call of the trait. A refused one changes nothing.
    pub fn set(&mut self, name: &Text8, bytes: &[u8]) -> Result<(), OutOfMemory>
        ensures ok { OnOk result (calm_contents self.new ≡ holding
            (calm_contents self.old) name.now bytes.now) }
        ensures err { OnErr result (self.new ≡ self.old) }
        ensures absents { calm_absents self.new ≡ calm_absents self.old }
        ensures oversizes { calm_oversizes self.new ≡ calm_oversizes self.old }
    {
        self.shelf.put(name.as_slice(), bytes)
    }

    /// What a name holds; `None` exactly where it is not held.
    pub fn held(&self, name: &Text8) -> Option<&Text8>
        ensures { option_copied result ≡ calm_contents self.now name.now }
    {
        self.shelf.find(name.as_slice())
    }
}

impl Files for CalmFiles {
    ghost seen = { calm_seen_of };

    fn read_all(&mut self, name: &Text8, limit: u64) -> Result<Text8, FileFault>
        ensures told_stays { calm_contents self.new ≡ calm_contents self.old }
        ensures within { IfOk result (λ bytes. length bytes ≤ limit) }
        ensures answer { Gives result (reading (calm_contents self.old name.now) limit) }
        ensures never_fails { IsErrOf result FileFault.Failed → ⊥ }
        ensures absents { Counts (IsErrOf result FileFault.Absent) (calm_absents self.old)
            (calm_absents self.new) }
        ensures oversizes { Counts (IsErrOf result FileFault.TooLarge) (calm_oversizes self.old)
            (calm_oversizes self.new) }
        ensures absents_once { AtMostOnce (calm_absents self.old) (calm_absents self.new) }
        ensures oversizes_once { AtMostOnce (calm_oversizes self.old) (calm_oversizes self.new) }
    {
        self.shelf.read(name.as_slice(), limit)
    }

    fn write_all_to(&mut self, name: &Text8, bytes: &[u8]) -> Result<(), WriteError>
        ensures written { OnOk result (calm_contents self.new ≡ holding
            (calm_contents self.old) name.now bytes.now) }
        ensures cut_short { OnErr result (calm_contents self.new ≡ calm_contents self.old) }
        ensures never_fails { IsErrOf result WriteError.Failed → ⊥ }
        ensures absents { calm_absents self.new ≡ calm_absents self.old }
        ensures oversizes { calm_oversizes self.new ≡ calm_oversizes self.old }
    {
        self.shelf.put(name.as_slice(), bytes)?;
        Ok(())
    }
}

/// A sink in memory of which no writing fails. It tells what it has, and takes at most 64 bytes at once.
#[derive(Debug, Drop)]
pub struct CalmSink {
    bytes: Text8,
}

impl CalmSink {
    /// An empty sink.
    pub fn new(alloc: Global) -> CalmSink
        ensures { calm_written result ≡ [] }
    {
        CalmSink {
            bytes: Text8::new(alloc),
        }
    }

    /// What the sink has.
    pub fn bytes(&self) -> &Text8
        ensures { result.now ≡ calm_written self.now }
    {
        &self.bytes
    }
}

impl Sink for CalmSink {
    ghost seen = { calm_sink_seen_of };

    fn write(&mut self, piece: &[u8]) -> Result<usize, WriteError>
        ensures count { IfOk result (λ k. k ≡ taken piece.now) }
        ensures within { IfOk result (λ k. k ≤ length piece.now) }
        ensures progress { IfOk result (λ k. 0 < length piece.now → 1 ≤ k) }
        ensures appended { IfOk result (λ k. calm_written self.new ≡ calm_written self.old
            ++ take k piece.now) }
        ensures refused { OnErr result (calm_written self.new ≡ calm_written self.old) }
        ensures never_fails { IsErrOf result WriteError.Failed → ⊥ }
    {
        let count = accept(&mut self.bytes, piece)?;
        Ok(count)
    }
}
