//! Files in memory, and which calls are to fail.
ghost use Rattle.std.specs.Prelude.{◌≡◌, ◌+◌, ◌-◌, ◌^◌, ◌<◌, min, [], ◌∷◌, ◌++◌, length, position, slice_set, Some, None, OnOk, OnErr, IsErrOf};
ghost use Rattle.std.specs.Option.{option_copied};
ghost use Rattle.tester_io.specs.Outside.{holding, empty, Counts, AtMostOnce};
ghost use Rattle.tester_io.specs.Memory.{named, held_in, is_to_fail, reading, Gives};

use crate::FileFault;
use fx8::{ItemList, Numbers, OutOfMemory, Text8};
use std::alloc::Global;

/// A name and what it holds.
#[derive(Debug, Drop)]
pub struct Held {
    pub name: Text8,
    pub bytes: Text8,
}

/// The place of a name.
fn place_of(files: &[Held], name: &[u8]) -> Option<usize>
    ensures { result ≡ position (named name.now) files.now }
{
    files.iter().position(|file| file.name.as_slice() == name)
}

/// Puts a file in the place of the one of its name, or at the end. A refused call changes nothing.
fn put_file(files: &mut ItemList<Held>, file: Held) -> Result<(), OutOfMemory>
    ensures ok { OnOk result (held_in files.new ≡ holding (held_in files.old) file.name file.bytes) }
    ensures err { OnErr result (files.new ≡ files.old) }
{
    match place_of(files.as_slice(), file.name.as_slice()) {
        Some(i) => {
            let _was = files.replace(i as u64, file);
            Ok(())
        }
        None => {
            files.push(file)?;
            Ok(())
        }
    }
}

/// Files in memory, and how often a reading was refused for what they hold.
#[derive(Debug, Drop)]
pub struct Shelf {
    pub files: ItemList<Held>,
    pub absents: u64,
    pub oversizes: u64,
    pub alloc: Global,
}

impl Shelf {
    pub fn new(alloc: Global) -> Shelf
        ensures contents { held_in result.files ≡ empty }
        ensures absents { result.absents ≡ 0 }
        ensures oversizes { result.oversizes ≡ 0 }
    {
        Shelf {
            files: ItemList::new(alloc),
            absents: 0,
            oversizes: 0,
            alloc,
        }
    }

    /// What a name holds.
    pub fn find(&self, name: &[u8]) -> Option<&Text8>
        ensures { option_copied result ≡ held_in self.now.files name.now }
    {
        match self
            .files
            .as_slice()
            .iter()
            .find(|file| file.name.as_slice() == name)
        {
            Some(file) => Some(&file.bytes),
            None => None,
        }
    }

    /// Makes a name hold these bytes. A refused call changes nothing.
    pub fn put(&mut self, name: &[u8], bytes: &[u8]) -> Result<(), OutOfMemory>
        ensures ok { OnOk result (held_in self.new.files ≡ holding
            (held_in self.old.files) name.now bytes.now) }
        ensures err { OnErr result (self.new ≡ self.old) }
        ensures absents { self.new.absents ≡ self.old.absents }
        ensures oversizes { self.new.oversizes ≡ self.old.oversizes }
    {
        let file = Held {
            name: Text8::from_slice(self.alloc, name)?,
            bytes: Text8::from_slice(self.alloc, bytes)?,
        };
        put_file(&mut self.files, file)
    }

    /// A copy of what a name holds, of at most `limit` bytes.
    pub fn read(&mut self, name: &[u8], limit: u64) -> Result<Text8, FileFault>
        ensures answer { Gives result (reading (held_in self.old.files name.now) limit) }
        ensures files { self.new.files ≡ self.old.files }
        ensures absents { Counts (IsErrOf result FileFault.Absent) self.old.absents self.new.absents }
        ensures oversizes { Counts (IsErrOf result FileFault.TooLarge) self.old.oversizes self.new.oversizes }
        ensures absents_once { AtMostOnce self.old.absents self.new.absents }
        ensures oversizes_once { AtMostOnce self.old.oversizes self.new.oversizes }
    {
        let Some(bytes) = self.find(name) else {
            self.absents = self.absents.saturating_add(1);
            return Err(FileFault::Absent);
        };
        if bytes.len() > limit {
            self.oversizes = self.oversizes.saturating_add(1);
            return Err(FileFault::TooLarge);
        }
        let copy = Text8::from_slice(self.alloc, bytes.as_slice())?;
        Ok(copy)
    }
}

/// The calls so far, and the numbers of those that are to fail.
#[derive(Debug, Drop)]
pub struct Turns {
    pub fails: Numbers,
    pub calls: u64,
}

impl Turns {
    /// Counts a call, and tells whether it is to fail.
    pub fn take(&mut self) -> bool
        ensures due { result ≡ is_to_fail self.old.fails self.old.calls }
        ensures calls { self.new.calls ≡ min (self.old.calls + 1) (2 ^ 64 - 1) }
        ensures fails { self.new.fails ≡ self.old.fails }
    {
        let call = self.calls;
        self.calls = call.saturating_add(1);
        self.fails
            .as_slice()
            .iter()
            .any(|number| u64::from(*number) == call)
    }
}
