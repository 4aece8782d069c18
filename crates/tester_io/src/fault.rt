//! Why a file or a sink refuses.

use fx8::OutOfMemory;
use thiserror::Error;

/// Why a file was not read.
#[derive(Clone, Copy, Debug, PartialEq, Eq, Error)]
pub enum FileFault {
    /// No file has this name.
    #[error("no such file")]
    Absent,
    /// The system could not read the file.
    #[error("the file cannot be read")]
    Failed,
    /// The file has more bytes than the reader takes.
    #[error("the file is too large")]
    TooLarge,
    /// There was no memory for the bytes.
    #[error("out of memory")]
    OutOfMemory,
}

/// Why bytes were not written.
#[derive(Clone, Copy, Debug, PartialEq, Eq, Error)]
pub enum WriteError {
    /// The system could not write.
    #[error("cannot write")]
    Failed,
    /// There was no memory to write.
    #[error("out of memory")]
    OutOfMemory,
}

impl From<OutOfMemory> for FileFault {
    ghost use Rattle.std.specs.Prelude.{◌≡◌};
    ghost use Rattle.tester_io.specs.declared.fault.FileFault.TheVariants as faults;

    ghost from_gives = { λ _ e. e ≡ faults.OutOfMemory };

    fn from(_error: OutOfMemory) -> FileFault {
        FileFault::OutOfMemory
    }
}

impl From<OutOfMemory> for WriteError {
    ghost use Rattle.std.specs.Prelude.{◌≡◌};
    ghost use Rattle.tester_io.specs.declared.fault.WriteError.TheVariants as errors;

    ghost from_gives = { λ _ e. e ≡ errors.OutOfMemory };

    fn from(_error: OutOfMemory) -> WriteError {
        WriteError::OutOfMemory
    }
}
