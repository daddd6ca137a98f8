ghost use Rattle.std.specs.Prelude.{◌≡◌, ◌≤◌, ◌<◌, ◌^◌, ◌+◌, [], length, IfOk, OnOk};
ghost use Rattle.nb_history.specs.History.{standing, plus};
ghost use Rattle.nb_core.specs.Core.{gate as gate_of};
ghost use Rattle.nb_core.specs.Parts.{AreParts};

use crate::replayed::Reading;
use nb_log::{Entry, Event, Log, Refusal};
use nb_runs::{Started, Ticket};
use nb_sheet::Sheet;
use nb_value::{Pairs, Value};
use std::alloc::{AllocError, Global};
use std::marker::Model;

mod answers;
mod closing;
mod editing;
mod notices;
mod room;

/// The log, with the state that it leaves. Each call adds one entry, whatever entry it is: that it fits is the core's to ask.
/// Contracts see it as its builtins and log, with how many entries more it takes without more memory.
#[derive(Drop)]
pub struct Machine {
    alloc: Global,
    sheet: Sheet,
    starts: Vec<Option<Started>>,
    disposed: bool,
    tickets: Vec<Ticket>,
    log: Log,
}

impl Model for Machine {
    ghost use Rattle.std.specs.Prelude.{vec_len, vec_capacity};
    ghost use Rattle.nb_core.specs.Codes.{kept_code};
    ghost use Rattle.nb_core.specs.Stands.{Kept, Stands, room_of};
    ghost use Rattle.nb_value.specs.contracts.value.Value as value;
    ghost use Rattle.nb_log.specs.contracts.entry.Entry as entry;

    ghost Value = { Kept };

    ghost coded = { kept_code value.the_row.coded entry.the_row.coded };

    ghost view = { λ m. record { history = record { builtins = m.sheet.sheet.builtins; log = m.log.entries }; room = room_of m.log.room (vec_capacity m.tickets) (vec_len m.tickets) } };

    ghost invariant = { λ m. Stands m.sheet.sheet m.starts.items m.disposed m.tickets.items m.log.entries };
}

impl Machine {
    /// No entry, over at most 65,536 builtins. It fails only without memory.
    pub fn new(alloc: Global, builtins: Pairs<Value>) -> Result<Machine, AllocError>
        requires { length builtins ≤ 65536 }
        ensures { IfOk result (λ machine. machine.history ≡ record { builtins = builtins; log = [] }) }
    {
        let sheet = Sheet::new(alloc, builtins)?;
        Ok(Machine {
            alloc,
            sheet,
            starts: Vec::new(alloc),
            disposed: false,
            tickets: Vec::new(alloc),
            log: Log::new(alloc),
        })
    }

    /// Makes room for more entries, and adds none. It fails only without memory.
    pub fn reserve(&mut self, n: usize) -> Result<(), AllocError>
        ensures same { self.new.history ≡ self.old.history }
        ensures room { OnOk result (n ≤ self.new.room) }
    {
        room::make_room(&mut self.log, &mut self.tickets, n)
    }

    /// An event is refused.
    pub fn refuse(&mut self, editor: u8, reason: Refusal, event: Event)
        requires room { 0 < self.old.room }
        ensures entry { self.new.history ≡ plus self.old.history (Entry.Refused editor reason event) }
        ensures room { self.old.room ≤ self.new.room + 1 }
    {
        self.log.push(Entry::Refused {
            editor,
            reason,
            event,
        });
    }

    /// The log rests.
    pub fn rest(&mut self, editor: u8)
        requires room { 0 < self.old.room }
        ensures entry { self.new.history ≡ plus self.old.history (Entry.Rest editor) }
        ensures room { self.old.room ≤ self.new.room + 1 }
    {
        self.log.push(Entry::Rest { editor });
    }

    /// The notebook is disposed of.
    pub fn dispose(&mut self, editor: u8)
        requires room { 0 < self.old.room }
        ensures entry { self.new.history ≡ plus self.old.history (Entry.Dispose editor) }
        ensures room { self.old.room ≤ self.new.room + 1 }
    {
        self.disposed = true;
        self.log.push(Entry::Dispose { editor });
    }

    /// Each generator that waits for a pull is pulled. It costs a look at each start. No start counts its pulls past 32 bits.
    pub fn frame(&mut self, editor: u8)
        requires room { 0 < self.old.room }
        requires few { length self.old.history.log + 1 < 2 ^ 32 }
        ensures entry { self.new.history ≡ plus self.old.history (Entry.Frame editor) }
        ensures room { self.old.room ≤ self.new.room + 1 }
    {
        nb_runs::starts::pull_all(&self.sheet, &mut self.starts);
        self.log.push(Entry::Frame { editor });
    }

    /// A ticket that isn't live any more is settled.
    pub fn late(&mut self, editor: u8, ticket: u64)
        requires room { 0 < self.old.room }
        ensures entry { self.new.history ≡ plus self.old.history (Entry.Late editor ticket) }
        ensures room { self.old.room ≤ self.new.room + 1 }
    {
        nb_runs::tickets::settle(&mut self.tickets, ticket);
        self.log.push(Entry::Late { editor, ticket });
    }

    // ---- looks, which take no memory

    /// The sheet.
    pub fn sheet(&self) -> &Sheet
        ensures value { result.now.sheet ≡ (standing self.now.history).sheet }
        ensures builtins { result.now.sheet.builtins ≡ self.now.history.builtins }
    {
        &self.sheet
    }

    /// The start of each variable, by number from 1.
    pub fn starts(&self) -> &Vec<Option<Started>>
        ensures { result.now.items ≡ (standing self.now.history).starts }
    {
        &self.starts
    }

    /// The tickets, by number from 1.
    pub fn tickets(&self) -> &Vec<Ticket>
        ensures { result.now.items ≡ (standing self.now.history).tickets }
    {
        &self.tickets
    }

    /// Whether the notebook is disposed of.
    pub fn is_disposed(&self) -> bool
        ensures { result ≡ (standing self.now.history).disposed }
    {
        self.disposed
    }

    /// The log.
    pub fn log(&self) -> &Log
        ensures { result.now.entries ≡ self.now.history.log }
    {
        &self.log
    }

    /// The number of entries.
    pub fn len(&self) -> u64
        ensures value { result ≡ length self.now.history.log }
        ensures small { result < 2 ^ 63 }
    {
        self.log.len()
    }

    /// The first of the refusals that meet any event.
    pub fn gate(&self) -> Option<Refusal>
        ensures { result ≡ gate_of (standing self.now.history) }
    {
        if self.disposed {
            Some(Refusal::Disposed)
        } else if self.log.size() > 4_000_000 {
            Some(Refusal::LogFull)
        } else {
            None
        }
    }

    // ---- taken apart

    /// What the log leaves. The log itself is let go of.
    pub fn into_reading(self) -> Reading
        ensures { AreParts result (standing self.history) }
    {
        Reading {
            sheet: self.sheet,
            starts: self.starts,
            disposed: self.disposed,
            tickets: self.tickets,
        }
    }
}
