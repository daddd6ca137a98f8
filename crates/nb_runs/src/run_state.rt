ghost use Rattle.std.specs.Prelude.{◌≡◌, IfErr, OnOk, OnErr};
ghost use Rattle.nb_runs.specs.RunStates.{idle_state, started_state, changed_by, MayCome};
ghost use Rattle.nb_runs.specs.declared.run_state.Change.TheVariants.{Answered};

use crate::answers::Answers;
use nb_value::{Answer, Items, Outcome, Value};
use std::alloc::{AllocError, Global};

/// What stands of a variable: its present start, or that it is idle.
#[derive(Drop)]
pub struct RunState {
    /// The place of its `pending` entry, and 0 for an idle variable.
    pub start: u64,
    /// The answers to its fetches so far, in order.
    pub answers: Answers,
    /// The open ticket, if there is one.
    pub ticket: Option<u64>,
    /// How often it was pulled: from 1, and 0 for an idle variable.
    pub pulls: u32,
    /// What it shows, if it shows anything.
    pub shown: Option<Outcome>,
    /// Whether it runs.
    pub running: bool,
    /// Whether it has no further value.
    pub ended: bool,
    /// The cleanups that it owes, in the order in which it made them.
    pub owed: Items<Value>,
}

/// What an entry of the log does to a variable's state.
#[derive(Drop)]
pub enum Change {
    /// A new start, at the place of its `pending` entry.
    Started(u64),
    /// The answer to its open ticket.
    Answered(Answer),
    /// One more pull of a generator.
    Pulled,
    /// It shows an outcome.
    Shown {
        /// What it shows.
        outcome: Outcome,
        /// The cleanups that it owes from now on.
        owed: Items<Value>,
        /// Whether it has no further value.
        ended: bool,
    },
    /// It waits for the answer to a ticket.
    Asked {
        /// The ticket's number.
        ticket: u64,
        /// The cleanups that it owes from now on.
        owed: Items<Value>,
    },
    /// It has no further value; what it shows stays.
    Ended {
        /// The cleanups that it owes from now on.
        owed: Items<Value>,
    },
    /// It is idle.
    Left,
}

impl RunState {
    /// The state of an idle variable. It takes no memory.
    pub fn idle(alloc: Global) -> RunState
        ensures { result ≡ idle_state }
    {
        RunState {
            start: 0,
            answers: Answers::new(alloc),
            ticket: None,
            pulls: 0,
            shown: None,
            running: false,
            ended: false,
            owed: Items::new(alloc),
        }
    }

    /// The state at a `pending` entry. It takes no memory.
    fn started(alloc: Global, place: u64) -> RunState
        ensures { result ≡ started_state place }
    {
        RunState {
            start: place,
            answers: Answers::new(alloc),
            ticket: None,
            pulls: 1,
            shown: None,
            running: true,
            ended: false,
            owed: Items::new(alloc),
        }
    }

    /// Changes the state as an entry does. It fails only without memory, where an answer comes; then nothing has changed, and
    /// the change comes back.
    pub fn change(&mut self, alloc: Global, change: Change) -> Result<(), (Change, AllocError)>
        requires { MayCome change self.old }
        ensures ok { OnOk result (self.new ≡ changed_by change self.old) }
        ensures err { OnErr result (self.new ≡ self.old) }
        ensures back { IfErr result (λ e. e.0 ≡ change) }
    {
        match change {
            Change::Started(place) => *self = RunState::started(alloc, place),
            Change::Answered(answer) => return self.answer(answer),
            Change::Pulled => {
                self.pulls += 1;
                self.running = true;
            }
            Change::Shown {
                outcome,
                owed,
                ended,
            } => {
                self.shown = Some(outcome);
                self.running = false;
                self.ended = self.ended || ended;
                self.owed = owed;
            }
            Change::Asked { ticket, owed } => {
                self.ticket = Some(ticket);
                self.running = false;
                self.owed = owed;
            }
            Change::Ended { owed } => {
                self.running = false;
                self.ended = true;
                self.owed = owed;
            }
            Change::Left => *self = RunState::idle(alloc),
        }
        Ok(())
    }

    /// Takes an answer and runs on.
    fn answer(&mut self, answer: Answer) -> Result<(), (Change, AllocError)>
        ensures ok { OnOk result (self.new ≡ changed_by (Answered answer) self.old) }
        ensures err { OnErr result (self.new ≡ self.old) }
        ensures back { IfErr result (λ e. e.0 ≡ Answered answer) }
    {
        if let Err(failed) = self.answers.push(answer) {
            return Err((Change::Answered(failed.value), AllocError));
        }
        self.ticket = None;
        self.running = true;
        Ok(())
    }
}
