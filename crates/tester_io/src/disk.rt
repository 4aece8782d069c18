//! The real files, and the real sink.
ghost use Rattle.std.specs.Prelude.{ℕ, ◌≡◌, ◌+◌, ◌-◌, ◌^◌, min, ◌<◌, ◌≤◌, ◌++◌, List, length, take, Option, Some, None, OnOk, OnErr, IfOk, IsErrOf, IsSomeAnd};
ghost use Rattle.tester_io.specs.Outside.{holding, CutShort, WhereTold, Counts};

use crate::{FileFault, Files, Sink, WriteError};
use fx8::{ItemList, Text8};
use std::alloc::Global;
use std::io::{ErrorKind, Read, Write};
use std::rt::Files as FileSystem;
use std::{fs, io, str};

/// How many bytes are read at once.
const BLOCK: usize = 4096;

/// Why a call of the system that reads failed.
fn read_fault(error: io::Error) -> FileFault {
    match error.kind() {
        ErrorKind::NotFound => FileFault::Absent,
        ErrorKind::OutOfMemory => FileFault::OutOfMemory,
        _ => FileFault::Failed,
    }
}

/// Why a call of the system that writes failed.
fn write_error(error: io::Error) -> WriteError {
    match error.kind() {
        ErrorKind::OutOfMemory => WriteError::OutOfMemory,
        _ => WriteError::Failed,
    }
}

/// The bytes that a reader has left, of which there may be `limit` at most. No more than `limit + 1` are
/// read.
fn read_whole<R: Read>(alloc: Global, from: &mut R, limit: u64) -> Result<Text8, FileFault>
    ensures { IfOk result (λ bytes. length bytes ≤ limit) }
{
    let mut bytes = Text8::new(alloc);
    let mut block = [0u8; BLOCK];
    for _ in 0..u64::MAX {
        let room = limit - bytes.len();
        let wanted = if room < BLOCK as u64 {
            room as usize + 1
        } else {
            BLOCK
        };
        let count = from.read(&mut block[..wanted]).map_err(read_fault)?;
        if count == 0 {
            return Ok(bytes);
        }
        if count as u64 > room {
            return Err(FileFault::TooLarge);
        }
        bytes.extend_from_slice(&block[..count])?;
    }
    Err(FileFault::Failed)
}

/// Files of the system. They tell nothing of what they hold.
#[derive(Drop)]
pub struct DiskFiles<R> {
    runtime: R,
    alloc: Global,
    read_faults: u64,
    absents: u64,
    oversizes: u64,
    write_faults: u64,
}

impl<R: FileSystem> DiskFiles<R> {
    /// The files that the runtime reaches, with all counts 0.
    pub fn new(runtime: R, alloc: Global) -> DiskFiles<R>
        ensures read_faults { (⟦<DiskFiles<R> as Files>⟧.seen result).read_faults ≡ 0 }
        ensures absents { (⟦<DiskFiles<R> as Files>⟧.seen result).absents ≡ 0 }
        ensures oversizes { (⟦<DiskFiles<R> as Files>⟧.seen result).oversizes ≡ 0 }
        ensures write_faults { (⟦<DiskFiles<R> as Files>⟧.seen result).write_faults ≡ 0 }
    {
        DiskFiles {
            runtime,
            alloc,
            read_faults: 0,
            absents: 0,
            oversizes: 0,
            write_faults: 0,
        }
    }

    /// The bytes of a file; a name that is not UTF-8 is absent.
    fn open_and_read(&self, name: &Text8, limit: u64) -> Result<Text8, FileFault>
        ensures { IfOk result (λ bytes. length bytes ≤ limit) }
    {
        let Ok(path) = str::from_utf8(name.as_slice()) else {
            return Err(FileFault::Absent);
        };
        let mut file = fs::open(&self.runtime, path).map_err(read_fault)?;
        read_whole(self.alloc, &mut file, limit)
    }

    /// Writes a file whole; to a name that is not UTF-8 nothing can be written.
    fn create_and_write(&self, name: &Text8, bytes: &[u8]) -> Result<(), WriteError> {
        let Ok(path) = str::from_utf8(name.as_slice()) else {
            return Err(WriteError::Failed);
        };
        let mut file = fs::create(&self.runtime, path).map_err(write_error)?;
        file.write_all(bytes).map_err(write_error)
    }
}

impl<R: FileSystem> Files for DiskFiles<R> {
    ghost seen = { λ files. record {
      told = None;
      absents = files.absents;
      read_faults = files.read_faults;
      oversizes = files.oversizes;
      write_faults = files.write_faults;
    } };

    fn read_all(&mut self, name: &Text8, limit: u64) -> Result<Text8, FileFault> {
        let read = self.open_and_read(name, limit);
        match &read {
            Ok(_) | Err(FileFault::OutOfMemory) => {}
            Err(FileFault::Absent) => self.absents = self.absents.saturating_add(1),
            Err(FileFault::Failed) => self.read_faults = self.read_faults.saturating_add(1),
            Err(FileFault::TooLarge) => self.oversizes = self.oversizes.saturating_add(1),
        }
        read
    }

    fn write_all_to(&mut self, name: &Text8, bytes: &[u8]) -> Result<(), WriteError> {
        let wrote = self.create_and_write(name, bytes);
        if let Err(WriteError::Failed) = &wrote {
            self.write_faults = self.write_faults.saturating_add(1);
        }
        wrote
    }
}

/// Standard output. It tells nothing of what was written.
#[derive(Drop)]
pub struct OutSink<R> {
    runtime: R,
    write_faults: u64,
}

impl<R: Print> OutSink<R> {
    /// The runtime's standard output, with its count 0.
    pub fn new(runtime: R) -> OutSink<R>
        ensures { (⟦<OutSink<R> as Sink>⟧.seen result).write_faults ≡ 0 }
    {
        OutSink {
            runtime,
            write_faults: 0,
        }
    }

    /// Writes some of the bytes; to write none of a piece that is not empty is a failure.
    fn write_some(&self, piece: &[u8]) -> Result<usize, WriteError>
        ensures within { IfOk result (λ k. k ≤ length piece.now) }
        ensures progress { IfOk result (λ k. 0 < length piece.now → 1 ≤ k) }
    {
        let count = io::writer(&self.runtime).write(piece).map_err(write_error)?;
        if count == 0 && !piece.is_empty() {
            return Err(WriteError::Failed);
        }
        Ok(count)
    }
}

impl<R: Print> Sink for OutSink<R> {
    ghost seen = { λ sink. record { told = None; write_faults = sink.write_faults } };

    fn write(&mut self, piece: &[u8]) -> Result<usize, WriteError> {
        let wrote = self.write_some(piece);
        if let Err(WriteError::Failed) = &wrote {
            self.write_faults = self.write_faults.saturating_add(1);
        }
        wrote
    }
}
