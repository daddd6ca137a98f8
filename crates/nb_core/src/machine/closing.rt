ghost use Rattle.std.specs.Prelude.{◌≡◌, ◌≤◌, ◌<◌, ◌+◌, length};
ghost use Rattle.nb_history.specs.History.{standing, plus, plus_all};
ghost use Rattle.nb_history.specs.Reading.{owed};
ghost use Rattle.nb_history.specs.Rules.{footing};
ghost use Rattle.nb_runs.specs.Footings.{footing_of, IsMarked};
ghost use Rattle.nb_closing.specs.Plan.{entry_of, RestsRight, Plans, planned};

use crate::machine::Machine;
use nb_closing::Step;
use nb_log::Entry;
use nb_runs::Started;
use nb_runs::starts::{owed_of, put_start, take};
use nb_wave::Footing;

impl Machine {
    /// A variable leaves: its start is thrown away, and what it owes goes into the log.
    pub fn leave(&mut self, var: u32)
        requires room { 0 < self.old.room }
        ensures entry { self.new.history ≡ plus self.old.history (Entry.Left var (owed (standing self.old.history) var)) }
        ensures room { self.old.room ≤ self.new.room + 1 }
    {
        let left = take(&mut self.starts, var);
        let disposed = owed_of(self.alloc, left);
        self.log.push(Entry::Left { var, disposed });
    }

    /// A variable starts on what it rests on now: its old start is thrown away, and what that owes goes into the log.
    pub fn pend(&mut self, var: u32, kept: Footing)
        requires room { 0 < self.old.room }
        requires kept { footing_of kept ≡ footing (standing self.old.history) var }
        requires marked { IsMarked kept }
        ensures entry { self.new.history ≡ plus self.old.history (Entry.Pending var (owed (standing self.old.history) var)) }
        ensures room { self.old.room ≤ self.new.room + 1 }
    {
        let place = self.log.len() + 1;
        let last = take(&mut self.starts, var);
        let disposed = owed_of(self.alloc, last);
        let new = Started::new(self.alloc, place, kept);
        put_start(&mut self.starts, var, Some(new));
        self.log.push(Entry::Pending { var, disposed });
    }

    /// One step of what closes.
    fn step(&mut self, step: Step)
        requires room { 0 < self.old.room }
        requires rests { RestsRight (standing self.old.history) step }
        ensures entry { self.new.history ≡ plus self.old.history (entry_of (standing self.old.history) step) }
        ensures room { self.old.room ≤ self.new.room + 1 }
    {
        match step {
            Step::Leaves(var) => self.leave(var),
            Step::Starts(var, kept) => self.pend(var, kept),
        }
    }

    /// All steps of what closes. It takes no memory.
    pub fn commit(&mut self, steps: Vec<Step>)
        requires room { length steps.items ≤ self.old.room }
        requires plans { Plans (standing self.old.history) steps.items }
        ensures { self.new.history ≡ plus_all self.old.history (planned (standing self.old.history) steps.items) }
    {
        for step in steps {
            self.step(step);
        }
    }
}
