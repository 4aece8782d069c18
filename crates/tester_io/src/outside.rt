//! What the program asks of the outside.
ghost use Rattle.std.specs.Prelude.{◌≡◌, ℕ, ◌<◌, ◌≤◌, ◌++◌, List, length, take, Option, Some, None, OnOk, OnErr, IfOk, IsErrOf, IsSomeAnd};
ghost use Rattle.tester_io.specs.Outside.{FilesSeen, SinkSeen, holding, CutShort, WhereTold, Counts};

use crate::{FileFault, WriteError};
use fx8::Text8;

/// Files that are read and written whole, by name.
///
/// What each name holds may be told or not. Four counts of faults never fall; a count of 64 bits stands still
/// at its end. No answer but want of memory comes without its count.
pub trait Files {
    /// What is seen of them: contents and counts.
    ghost seen: { Self → FilesSeen };

    /// The bytes of a file, of which there may be `limit` at most.
    fn read_all(&mut self, name: &Text8, limit: u64) -> Result<Text8, FileFault>
        ensures told_stays { (seen self.new).told ≡ (seen self.old).told }
        ensures within { IfOk result (λ bytes. length bytes ≤ limit) }
        ensures whole { IfOk result (λ bytes. WhereTold (seen self.old).told
            (λ held. held name.now ≡ Some bytes)) }
        ensures absent { IsErrOf result FileFault.Absent
            → WhereTold (seen self.old).told (λ held. held name.now ≡ None) }
        ensures too_large { IsErrOf result FileFault.TooLarge
            → WhereTold (seen self.old).told
            (λ held. IsSomeAnd (held name.now) (λ bytes. limit < length bytes)) }
        ensures absents { Counts (IsErrOf result FileFault.Absent) (seen self.old).absents
            (seen self.new).absents }
        ensures read_faults { Counts (IsErrOf result FileFault.Failed) (seen self.old).read_faults
            (seen self.new).read_faults }
        ensures oversizes { Counts (IsErrOf result FileFault.TooLarge) (seen self.old).oversizes
            (seen self.new).oversizes }
        ensures write_faults { (seen self.new).write_faults ≡ (seen self.old).write_faults };

    /// Makes a file hold exactly these bytes.
    fn write_all_to(&mut self, name: &Text8, bytes: &[u8]) -> Result<(), WriteError>
        ensures written { OnOk result (WhereTold (seen self.old).told
            (λ held. (seen self.new).told ≡ Some (holding held name.now bytes.now))) }
        ensures cut_short { OnErr result (WhereTold (seen self.old).told
            (λ held. CutShort held name.now bytes.now (seen self.new).told)) }
        ensures write_faults { Counts (IsErrOf result WriteError.Failed) (seen self.old).write_faults
            (seen self.new).write_faults }
        ensures read_faults { (seen self.new).read_faults ≡ (seen self.old).read_faults }
        ensures absents { (seen self.new).absents ≡ (seen self.old).absents }
        ensures oversizes { (seen self.new).oversizes ≡ (seen self.old).oversizes };
}

/// Where the program writes.
pub trait Sink {
    /// What is seen of it: what was written, and the count.
    ghost seen: { Self → SinkSeen };

    /// Writes a beginning of the piece, and answers how many bytes it has. A refused writing writes nothing.
    fn write(&mut self, piece: &[u8]) -> Result<usize, WriteError>
        ensures within { IfOk result (λ k. k ≤ length piece.now) }
        ensures progress { IfOk result (λ k. 0 < length piece.now → 1 ≤ k) }
        ensures appended { IfOk result (λ k. WhereTold (seen self.old).told
            (λ bytes. (seen self.new).told ≡ Some (bytes ++ take k piece.now))) }
        ensures refused { OnErr result ((seen self.new).told ≡ (seen self.old).told) }
        ensures write_faults { Counts (IsErrOf result WriteError.Failed) (seen self.old).write_faults
            (seen self.new).write_faults };
}
