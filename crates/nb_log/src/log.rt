//! The log, with its size kept.

ghost use Rattle.std.specs.Prelude.{◌≡◌, ◌+◌, ◌-◌, ◌^◌, ◌<◌, ◌≤◌, [], ◌∷◌, ◌++◌, length, min, OnOk, OnErr};
ghost use Rattle.std.specs.Option.{option_copied};
ghost use Rattle.nb_log.specs.Size.{entry_at, total_size};

use crate::entry::Entry;
use crate::size::entry_size;
use std::alloc::{AllocError, Global};
use std::marker::Model;

/// The entries in their order, and their size.
#[derive(Debug, Drop)]
pub struct Log {
    entries: Vec<Entry>,
    size: u64,
}

impl Model for Log {
    ghost use Rattle.std.specs.Prelude.{◌≡◌, ◌-◌, ◌^◌, min, vec_len, vec_capacity};
    ghost use Rattle.nb_log.specs.Size.{total_size};
    ghost use Rattle.nb_log.specs.Written.{Written, written_code};
    ghost use Rattle.nb_log.specs.contracts.entry.Entry as entry;

    ghost Value = { Written };

    ghost coded = { written_code entry.the_row.coded };

    ghost view = { λ a. record { entries = a.entries.items; room = vec_capacity a.entries - vec_len a.entries } };

    ghost invariant = { λ a. a.size ≡ min (total_size a.entries.items) (2 ^ 64 - 1) };
}

impl Log {
    /// A log without entries.
    pub fn new(alloc: Global) -> Log
        ensures { result.entries ≡ [] }
    {
        Log {
            entries: Vec::new(alloc),
            size: 0,
        }
    }

    /// Makes room for more entries, and changes none. It fails only without memory; then the log is as it was, its room too.
    pub fn reserve(&mut self, n: usize) -> Result<(), AllocError>
        ensures same { self.new.entries ≡ self.old.entries }
        ensures room { OnOk result (n ≤ self.new.room) }
        ensures err { OnErr result (self.new ≡ self.old) }
    {
        self.entries.reserve(n)
    }

    /// Adds an entry at the end. It takes no memory.
    pub fn push(&mut self, entry: Entry)
        requires { 0 < self.old.room }
        ensures entries { self.new.entries ≡ self.old.entries ++ entry ∷ [] }
        ensures room { self.old.room ≤ self.new.room + 1 }
    {
        self.size = self.size.saturating_add(entry_size(&entry));
        match self.entries.push(entry) {
            Ok(()) => {}
            Err(_) => unreachable!(),
        }
    }

    /// Adds entries at the end, in their order. It takes no memory.
    pub fn append(&mut self, entries: Vec<Entry>)
        requires { length entries.items ≤ self.old.room }
        ensures { self.new.entries ≡ self.old.entries ++ entries.items }
    {
        for entry in entries {
            self.push(entry);
        }
    }

    /// The size of all entries together, up to the end of u64.
    pub fn size(&self) -> u64
        ensures { result ≡ min (total_size self.now.entries) (2 ^ 64 - 1) }
    {
        self.size
    }

    /// The number of entries.
    pub fn len(&self) -> u64
        ensures value { result ≡ length self.now.entries }
        ensures small { result < 2 ^ 63 }
    {
        self.entries.len() as u64
    }

    /// The entry at a place. Places count from 1.
    pub fn get(&self, place: u64) -> Option<&Entry>
        ensures { option_copied result ≡ entry_at self.now.entries place }
    {
        if place == 0 {
            None
        } else {
            self.entries.get((place - 1) as usize)
        }
    }

    /// The entries in their order.
    pub fn as_slice(&self) -> &[Entry]
        ensures { result.now ≡ self.now.entries }
    {
        self.entries.as_slice()
    }
}
