//! Tickets, in a list that shows its spare room.
ghost use Rattle.std.specs.Prelude.{◌≡◌, ◌≤◌, ◌<◌, ◌+◌, [], ◌∷◌, ◌++◌, length, slice_get, OnOk, OnErr};
ghost use Rattle.std.specs.List.{insert};
ghost use Rattle.std.specs.Option.{option_copied};

use crate::OutOfMemory;
use std::alloc::Global;
use std::marker::Model;

/// A list of tickets of orders, deals or positions. Contracts see its items, and `spare`: for how many more
/// it has room. `reserve` makes room; a `push` into the room takes no memory.
#[derive(Debug, Drop)]
pub struct Tickets {
    items: Vec<u64>,
}

impl Model for Tickets {
    ghost use Rattle.std.specs.Prelude.{◌-◌};
    ghost use Rattle.std.specs.Vec.{vec_len, vec_capacity};
    ghost use Rattle.fx8.specs.Room.{Roomy};

    ghost Value = { Roomy };

    ghost view = { λ list. record {
      items = list.items.items;
      spare = vec_capacity list.items - vec_len list.items;
    } };
}

impl Tickets {
    /// The empty list, which takes no memory.
    pub fn new(alloc: Global) -> Tickets
        ensures { result.items ≡ [] }
    {
        Tickets {
            items: Vec::new(alloc),
        }
    }

    /// The tickets.
    pub fn as_slice(&self) -> &[u64]
        ensures { result.now ≡ self.now.items }
    {
        self.items.as_slice()
    }

    /// The number of tickets.
    pub fn len(&self) -> u64
        ensures { result ≡ length self.now.items }
    {
        self.items.len() as u64
    }

    /// The ticket at a place; `None` exactly where the place is not below the length.
    pub fn at(&self, i: u64) -> Option<&u64>
        ensures { option_copied result ≡ slice_get self.now.items i }
    {
        self.items.get(i as usize)
    }

    /// Makes room for `n` more tickets, and changes none. A refused call keeps the room.
    pub fn reserve(&mut self, n: u64) -> Result<(), OutOfMemory>
        ensures items { self.new.items ≡ self.old.items }
        ensures ok { OnOk result (n ≤ self.new.spare) }
        ensures err { OnErr result (self.new.spare ≡ self.old.spare) }
    {
        self.items.reserve(n as usize)?;
        Ok(())
    }

    /// Adds a ticket at the end, into the room.
    pub fn push(&mut self, ticket: u64)
        requires { 0 < self.old.spare }
        ensures items { self.new.items ≡ self.old.items ++ ticket ∷ [] }
        ensures spare { self.new.spare + 1 ≡ self.old.spare }
    {
        let end = self.items.len();
        let _done = self.items.insert(end, ticket);
    }

    /// Adds a ticket at a place, into the room.
    pub fn insert(&mut self, i: u64, ticket: u64)
        requires room { 0 < self.old.spare }
        requires place { i ≤ length self.old.items }
        ensures items { self.new.items ≡ insert self.old.items i ticket }
        ensures spare { self.new.spare + 1 ≡ self.old.spare }
    {
        let _done = self.items.insert(i as usize, ticket);
    }

    /// Makes the list empty, and keeps its memory.
    pub fn clear(&mut self)
        ensures items { self.new.items ≡ [] }
        ensures spare { self.new.spare ≡ self.old.spare + length self.old.items }
    {
        self.items.clear()
    }
}
