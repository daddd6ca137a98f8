ghost use Rattle.std.specs.Prelude.{◌≡◌, ◌≤◌, [], ◌&&◌, true, false, nat_le, length, IfOk};
ghost use Rattle.std.specs.Option.{option_copied};
ghost use Rattle.nb_sheet.specs.Lists.{nth, from_option};
ghost use Rattle.nb_history.specs.Reading.{shown as shown_in_log, number};
ghost use Rattle.nb_history.specs.History.{standing, IsClosedHistory};
ghost use Rattle.nb_history.specs.Log.{Rests};
ghost use Rattle.nb_history.specs.Rules.{ready as ready_of, wanted as wanted_of, scratch};
ghost use Rattle.nb_history.specs.Serial.{least_var};
ghost use Rattle.nb_closing.specs.Ties.{Ties as TiesValue};
ghost use Rattle.nb_work.specs.Work.{work_of};
ghost use Rattle.nb_core.specs.Core.{ShownIs, ShownBy, shown_outcome, RestsOnScratch};

mod completing;
mod events;
mod loading;

use crate::machine::Machine;
use crate::placed::Shown;
use nb_closing::{Closer, Ties};
use nb_eval::Work;
use nb_log::Log;
use nb_runs::Started;
use nb_runs::starts::start_at;
use nb_sheet::Sheet;
use nb_value::{Outcome, Pairs, Value};
use nb_work::readiness;
use std::alloc::{AllocError, Global};
use std::marker::Model;

/// The machine between two calls: its log is legal, and nothing is leaving or due. Contracts see it as its builtins and
/// its log.
#[derive(Drop)]
pub struct Core {
    alloc: Global,
    machine: Machine,
    closer: Closer,
}

impl Model for Core {
    ghost use Rattle.std.specs.Prelude.{◌≡◌};
    ghost use Rattle.nb_history.specs.History.{History, standing, IsClosedHistory};
    ghost use Rattle.nb_closing.specs.Ties.{all_ties};
    ghost use Rattle.nb_core.specs.Codes.{history_code};
    ghost use Rattle.nb_value.specs.contracts.value.Value as value;
    ghost use Rattle.nb_log.specs.contracts.entry.Entry as entry;

    ghost Value = { History };

    ghost coded = { history_code value.the_row.coded entry.the_row.coded };

    ghost view = { λ c. c.machine.history };

    ghost invariant = { λ c. IsClosedHistory c.machine.history × (c.closer ≡ all_ties (standing c.machine.history).sheet) };
}

impl Core {
    /// An empty log over these builtins. It fails only without memory.
    pub fn new(alloc: Global, builtins: Pairs<Value>) -> Result<Core, AllocError>
        requires { length builtins ≤ 65536 }
        ensures { IfOk result (λ core. core ≡ record { builtins = builtins; log = [] }) }
    {
        let machine = Machine::new(alloc, builtins)?;
        let closer = Closer::new(alloc)?;
        Ok(Core {
            alloc,
            machine,
            closer,
        })
    }

    /// The least ready variable. It takes no memory, and costs a look at each start, and at each input of those that run.
    pub fn next_ready(&self) -> Option<u32>
        ensures found { result ≡ least_var (standing self.now) (ready_of (standing self.now)) }
        ensures closed { IsClosedHistory self.now }
        ensures rest { RestsOnScratch self.now }
    {
        readiness::next_ready(
            self.machine.sheet(),
            self.closer.ties(),
            self.machine.starts(),
        )
    }

    /// The least ready variable that isn't below a number. It takes no memory.
    pub fn ready_from(&self, at_least: u32) -> Option<u32>
        ensures { result ≡ least_var (standing self.now) (λ v. nat_le at_least v && ready_of (standing self.now) v) }
    {
        readiness::ready_from(
            self.machine.sheet(),
            self.closer.ties(),
            self.machine.starts(),
            at_least,
        )
    }

    /// Whether a variable is ready. It takes no memory, and costs a look at each input.
    fn is_ready(&self, var: u32) -> bool
        ensures { result ≡ ready_of (standing self.now) var }
    {
        readiness::is_ready(
            self.machine.sheet(),
            self.closer.ties(),
            self.machine.starts(),
            var,
        )
    }

    /// The number of a variable's present start, 0 for an idle one or no variable. It takes no memory.
    pub fn start(&self, var: u32) -> u64
        ensures { result ≡ number (standing self.now) var }
    {
        readiness::number(self.machine.starts(), var)
    }

    /// What is to be done for a ready variable. It fails only without memory. It copies the cell, the values of its inputs and
    /// the answers so far.
    pub fn segment(&self, var: u32) -> Result<Work, AllocError>
        requires { ready_of (standing self.now) var ≡ true }
        ensures { IfOk result (λ work. work ≡ work_of (standing self.now) var) }
    {
        let work = nb_work::work_of(
            self.alloc,
            self.machine.sheet(),
            self.closer.ties(),
            self.machine.starts(),
            var,
        )?;
        Ok(work)
    }

    /// What a variable shows. Where the log rests, a wanted variable shows what evaluating from scratch gives.
    /// It takes no memory.
    pub fn shown(&self, var: u32) -> Shown<'_>
        ensures value { ShownIs (standing self.now) var result }
        ensures rest { Rests (standing self.now) → wanted_of (standing self.now) var ≡ true → shown_outcome result ≡ scratch (standing self.now) var }
    {
        shown_by(start_at(self.machine.starts(), var))
    }

    /// The outcome that a variable shows, if it shows one. It takes no memory.
    pub fn outcome(&self, var: u32) -> Option<&Outcome>
        ensures { option_copied result ≡ shown_in_log (standing self.now) var }
    {
        readiness::shown(self.machine.starts(), var)
    }

    /// Whether a variable is wanted. It takes no memory.
    pub fn wanted(&self, var: u32) -> bool
        ensures { result ≡ wanted_of (standing self.now) var }
    {
        !self.machine.is_disposed() && uses(self.closer.ties(), var)
    }

    /// The log.
    pub fn log(&self) -> &Log
        ensures value { result.now.entries ≡ self.now.log }
        ensures closed { IsClosedHistory self.now }
        ensures rest { RestsOnScratch self.now }
    {
        self.machine.log()
    }

    /// The sheet: the builtins, the modules and the rows of the variables. It takes no memory.
    pub fn sheet(&self) -> &Sheet
        ensures value { result.now.sheet ≡ (standing self.now).sheet }
        ensures builtins { result.now.sheet.builtins ≡ self.now.builtins }
    {
        self.machine.sheet()
    }
}

/// What a start shows.
fn shown_by(start: Option<&Started>) -> Shown<'_>
    ensures { ShownBy (option_copied start.entry) result }
{
    match start {
        None => Shown::Idle,
        Some(start) => match start.shown() {
            None => Shown::Waiting,
            Some(Outcome::Value(value)) => Shown::Value(value),
            Some(Outcome::Error(error)) => Shown::Error(error),
        },
    }
}

/// Whether a variable is used, by its ties.
fn uses(ties: &Vec<Ties>, var: u32) -> bool
    ensures { result ≡ from_option false (λ (t : TiesValue). t.is_used) (nth ties.now.items var) }
{
    if var == 0 {
        return false;
    }
    match ties.get(var as usize - 1) {
        None => false,
        Some(ties) => ties.is_used(),
    }
}
