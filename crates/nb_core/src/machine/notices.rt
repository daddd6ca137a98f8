ghost use Rattle.std.specs.Prelude.{◌≡◌, ◌≤◌, ◌<◌, ◌+◌, length};
ghost use Rattle.nb_history.specs.History.{standing, plus};
ghost use Rattle.nb_history.specs.Log.{cleanups_now, ends_at_once};
ghost use Rattle.nb_history.specs.Rules.{next};
ghost use Rattle.nb_work.specs.Notices.{shown_entry, IsNotice};

use crate::machine::Machine;
use nb_log::Entry;
use nb_runs::Ticket;
use nb_runs::starts::{ask_in, end_in, number_of, put_start, show_in, take};
use nb_value::{Items, Outcome, Text, Value};
use nb_work::Notice;
use std::mem::drop;

impl Machine {
    /// A variable shows an outcome. `entry` goes into the log.
    pub fn show(
        &mut self,
        var: u32,
        entry: Entry,
        outcome: Outcome,
        cleanups: Items<Value>,
        ends: bool,
    )
        requires room { 0 < self.old.room }
        requires same { entry ≡ shown_entry var outcome }
        requires cleanups { cleanups ≡ cleanups_now (standing self.old.history) var }
        requires ends { ends ≡ ends_at_once (standing self.old.history) var }
        ensures entry { self.new.history ≡ plus self.old.history entry }
        ensures room { self.old.room ≤ self.new.room + 1 }
    {
        let place = self.log.len() + 1;
        let mut start = take(&mut self.starts, var);
        show_in(&mut start, outcome, cleanups, ends, place);
        put_start(&mut self.starts, var, start);
        self.log.push(entry);
    }

    /// A variable asks for a fetch by this key, by the next ticket. `entry` goes into the log. It takes no memory.
    pub fn ask(&mut self, var: u32, entry: Entry, key: Text, cleanups: Items<Value>)
        requires room { 0 < self.old.room }
        requires same { entry ≡ Entry.Asked var (length (standing self.old.history).tickets + 1) key }
        requires cleanups { cleanups ≡ cleanups_now (standing self.old.history) var }
        ensures entry { self.new.history ≡ plus self.old.history entry }
        ensures room { self.old.room ≤ self.new.room + 1 }
    {
        let ticket = self.tickets.len() as u64 + 1;
        let mut start = take(&mut self.starts, var);
        let number = number_of(&start);
        ask_in(&mut start, ticket, cleanups);
        put_start(&mut self.starts, var, start);
        self.tickets.push_reserved(Ticket {
            var,
            number,
            key,
            settled: false,
        });
        self.log.push(entry);
    }

    /// A generator has no further value.
    pub fn end(&mut self, var: u32, cleanups: Items<Value>)
        requires room { 0 < self.old.room }
        requires cleanups { cleanups ≡ cleanups_now (standing self.old.history) var }
        ensures entry { self.new.history ≡ plus self.old.history (Entry.Ended var) }
        ensures room { self.old.room ≤ self.new.room + 1 }
    {
        let mut start = take(&mut self.starts, var);
        end_in(&mut start, cleanups);
        put_start(&mut self.starts, var, start);
        self.log.push(Entry::Ended { var });
    }

    /// Adds the entry of a notice, the next one of a variable. It takes no memory.
    pub fn enter(&mut self, var: u32, entry: Entry, notice: Notice)
        requires room { 0 < self.old.room }
        requires next { entry ≡ next (standing self.old.history) var }
        requires notice { IsNotice (standing self.old.history) (length (standing self.old.history).tickets + 1) var notice }
        ensures entry { self.new.history ≡ plus self.old.history entry }
        ensures room { self.old.room ≤ self.new.room + 1 }
    {
        match notice {
            Notice::Shows {
                outcome,
                cleanups,
                ends,
            } => self.show(var, entry, outcome, cleanups, ends),
            Notice::Asks { key, cleanups } => self.ask(var, entry, key, cleanups),
            Notice::Ends { cleanups } => {
                drop(entry);
                self.end(var, cleanups);
            }
        }
    }
}
