//! Files in memory, of which chosen calls fail.
ghost use Rattle.std.specs.Prelude.{◌≡◌, ℕ, ◌+◌, ◌-◌, ◌^◌, ◌<◌, ◌≤◌, min, ◌++◌, List, length, take, Option, Some, None, OnOk, OnErr, IfOk, IsErrOf, IsSomeAnd, IsTrue, ◌↔◌};
ghost use Rattle.std.specs.Option.{option_copied};
ghost use Rattle.tester_io.specs.Outside.{holding, empty, CutShort, WhereTold, Counts, AtMostOnce};
ghost use Rattle.tester_io.specs.Memory.{is_to_fail, Gives};
ghost use Rattle.tester_io.specs.InMemory.{seen_of, contents, calls_made, calls_to_fail, wanted, failed_reads, failed_writes, absent_reads, oversized_reads};

use crate::shelf::{Shelf, Turns};
use crate::{FileFault, Files, WriteError};
use fx8::{Numbers, OutOfMemory, Text8};
use std::alloc::Global;

/// Files in memory. They tell what they hold. Their calls are numbered from 0, readings and writings
/// together, and those whose numbers are on a list fail.
#[derive(Debug, Drop)]
pub struct MemFiles {
    shelf: Shelf,
    turns: Turns,
    read_faults: u64,
    write_faults: u64,
}

impl MemFiles {
    /// Files that hold nothing, of which the calls of these numbers are to fail.
    pub fn new(alloc: Global, fails: Numbers) -> MemFiles
        ensures contents { contents result ≡ empty }
        ensures calls { calls_made result ≡ 0 }
        ensures fails { calls_to_fail result ≡ fails }
        ensures read_faults { failed_reads result ≡ 0 }
        ensures absents { absent_reads result ≡ 0 }
        ensures oversizes { oversized_reads result ≡ 0 }
        ensures write_faults { failed_writes result ≡ 0 }
    {
        MemFiles {
            shelf: Shelf::new(alloc),
            turns: Turns { fails, calls: 0 },
            read_faults: 0,
            write_faults: 0,
        }
    }

    /// Gives a file its bytes. This is no call of the trait. A refused one changes nothing.
    pub fn set(&mut self, name: &Text8, bytes: &[u8]) -> Result<(), OutOfMemory>
        ensures ok { OnOk result (contents self.new ≡ holding (contents self.old) name.now bytes.now) }
        ensures err { OnErr result (self.new ≡ self.old) }
        ensures calls { calls_made self.new ≡ calls_made self.old }
        ensures fails { calls_to_fail self.new ≡ calls_to_fail self.old }
        ensures read_faults { failed_reads self.new ≡ failed_reads self.old }
        ensures absents { absent_reads self.new ≡ absent_reads self.old }
        ensures oversizes { oversized_reads self.new ≡ oversized_reads self.old }
        ensures write_faults { failed_writes self.new ≡ failed_writes self.old }
    {
        self.shelf.put(name.as_slice(), bytes)
    }

    /// What a name holds; `None` exactly where it is not held.
    pub fn held(&self, name: &Text8) -> Option<&Text8>
        ensures { option_copied result ≡ contents self.now name.now }
    {
        self.shelf.find(name.as_slice())
    }
}

impl Files for MemFiles {
    ghost seen = { seen_of };

    fn read_all(&mut self, name: &Text8, limit: u64) -> Result<Text8, FileFault>
        ensures told_stays { contents self.new ≡ contents self.old }
        ensures within { IfOk result (λ bytes. length bytes ≤ limit) }
        ensures answer { Gives result (wanted self.old name.now limit) }
        ensures calls { calls_made self.new ≡ min (calls_made self.old + 1) (2 ^ 64 - 1) }
        ensures fails { calls_to_fail self.new ≡ calls_to_fail self.old }
        ensures absents { Counts (IsErrOf result FileFault.Absent) (absent_reads self.old)
            (absent_reads self.new) }
        ensures read_faults { Counts (IsErrOf result FileFault.Failed) (failed_reads self.old)
            (failed_reads self.new) }
        ensures oversizes { Counts (IsErrOf result FileFault.TooLarge) (oversized_reads self.old)
            (oversized_reads self.new) }
        ensures absents_once { AtMostOnce (absent_reads self.old) (absent_reads self.new) }
        ensures read_faults_once { AtMostOnce (failed_reads self.old) (failed_reads self.new) }
        ensures oversizes_once { AtMostOnce (oversized_reads self.old) (oversized_reads self.new) }
        ensures write_faults { failed_writes self.new ≡ failed_writes self.old }
    {
        if self.turns.take() {
            self.read_faults = self.read_faults.saturating_add(1);
            return Err(FileFault::Failed);
        }
        self.shelf.read(name.as_slice(), limit)
    }

    fn write_all_to(&mut self, name: &Text8, bytes: &[u8]) -> Result<(), WriteError>
        ensures written { OnOk result (contents self.new ≡ holding (contents self.old) name.now bytes.now) }
        ensures cut_short { OnErr result (contents self.new ≡ contents self.old) }
        ensures answer { IsErrOf result WriteError.Failed
            ↔ IsTrue (is_to_fail (calls_to_fail self.old) (calls_made self.old)) }
        ensures calls { calls_made self.new ≡ min (calls_made self.old + 1) (2 ^ 64 - 1) }
        ensures fails { calls_to_fail self.new ≡ calls_to_fail self.old }
        ensures write_faults { Counts (IsErrOf result WriteError.Failed) (failed_writes self.old)
            (failed_writes self.new) }
        ensures write_faults_once { AtMostOnce (failed_writes self.old) (failed_writes self.new) }
        ensures read_faults { failed_reads self.new ≡ failed_reads self.old }
        ensures absents { absent_reads self.new ≡ absent_reads self.old }
        ensures oversizes { oversized_reads self.new ≡ oversized_reads self.old }
    {
        if self.turns.take() {
            self.write_faults = self.write_faults.saturating_add(1);
            return Err(WriteError::Failed);
        }
        self.shelf.put(name.as_slice(), bytes)?;
        Ok(())
    }
}
