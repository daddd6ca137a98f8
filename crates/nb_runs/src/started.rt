ghost use Rattle.std.specs.Prelude.{◌≡◌, ◌<◌, ◌^◌, ◌+◌, Some, true, OnOk, OnErr};
ghost use Rattle.std.specs.Option.{option_copied};
ghost use Rattle.nb_history.specs.Log.{new_start, answering, shows_value};
ghost use Rattle.nb_runs.specs.Footings.{footing_of, IsMarked};
ghost use Rattle.nb_runs.specs.Starts.{shown_by, asked_by, ended_by, is_pulled, pulled_once};

use nb_value::{Answer, Items, Outcome, Value};
use nb_wave::Footing;
use std::alloc::{AllocError, Global};
use std::marker::Model;

/// A start of a variable that isn't idle, as docs/RULES.md says. Contracts see it with what it rests on as the log has it.
#[derive(Drop)]
pub struct Started {
    number: u64,
    kept: Footing,
    answers: Items<Answer>,
    ticket: Option<u64>,
    pulls: u32,
    shown: Option<Outcome>,
    running: bool,
    ended: bool,
    owed: Items<Value>,
    renewal: u64,
}

impl Model for Started {
    ghost use Rattle.nb_history.specs.Reading.{Start};
    ghost use Rattle.nb_runs.specs.Footings.{footing_of, IsMarked};
    ghost use Rattle.nb_runs.specs.Codes.{start_code};
    ghost use Rattle.nb_value.specs.contracts.outcome.Answer as answer;
    ghost use Rattle.nb_value.specs.contracts.outcome.Outcome as outcome;
    ghost use Rattle.nb_value.specs.contracts.value.Value as value;

    ghost Value = { Start };

    ghost coded = { start_code answer.the_row.coded outcome.the_row.coded value.the_row.coded };

    ghost view = { λ s. record { number = s.number; kept = footing_of s.kept; answers = s.answers; ticket = s.ticket; pulls = s.pulls; shown = s.shown; running = s.running; ended = s.ended; owed = s.owed; renewal = s.renewal } };

    ghost invariant = { λ s. IsMarked s.kept };
}

impl Started {
    /// A new start at its `pending` entry's place, which rests on this. It runs its first pull.
    pub fn new(alloc: Global, place: u64, kept: Footing) -> Started
        requires { IsMarked kept }
        ensures { result ≡ new_start place (footing_of kept) }
    {
        Started {
            number: place,
            kept,
            answers: Items::new(alloc),
            ticket: None,
            pulls: 1,
            shown: None,
            running: true,
            ended: false,
            owed: Items::new(alloc),
            renewal: place,
        }
    }

    /// The place of its `pending` entry.
    pub fn number(&self) -> u64
        ensures { result ≡ self.now.number }
    {
        self.number
    }

    /// What it rests on.
    pub fn kept(&self) -> &Footing
        ensures value { footing_of result.now ≡ self.now.kept }
        ensures marked { IsMarked result.now }
    {
        &self.kept
    }

    /// The answers to its fetches so far, in order.
    pub fn answers(&self) -> &Items<Answer>
        ensures { result.now ≡ self.now.answers }
    {
        &self.answers
    }

    /// The ticket whose answer it waits for, if it does.
    pub fn ticket(&self) -> Option<u64>
        ensures { result ≡ self.now.ticket }
    {
        self.ticket
    }

    /// The place of its `pending` entry, or of its last outcome of a second or later pull.
    pub fn renewal(&self) -> u64
        ensures { result ≡ self.now.renewal }
    {
        self.renewal
    }

    /// How often it was pulled, from 1.
    pub fn pulls(&self) -> u32
        ensures { result ≡ self.now.pulls }
    {
        self.pulls
    }

    /// What it shows.
    pub fn shown(&self) -> Option<&Outcome>
        ensures { option_copied result ≡ self.now.shown }
    {
        self.shown.as_ref()
    }

    /// Whether it runs.
    pub fn is_running(&self) -> bool
        ensures { result ≡ self.now.running }
    {
        self.running
    }

    /// Takes the cleanups that it owes, for the entry that disposes of them. It is thrown away then.
    pub fn into_owed(self) -> Items<Value>
        ensures { result ≡ self.owed }
    {
        self.owed
    }

    /// Shows an outcome.
    pub fn show(&mut self, outcome: Outcome, cleanups: Items<Value>, ends: bool, place: u64)
        ensures { self.new ≡ shown_by outcome cleanups ends place self.old }
    {
        self.shown = Some(outcome);
        self.running = false;
        self.ended = self.ended || ends;
        self.owed = cleanups;
        if self.pulls >= 2 {
            self.renewal = place;
        }
    }

    /// Waits for the answer to a ticket.
    pub fn ask(&mut self, ticket: u64, cleanups: Items<Value>)
        ensures { self.new ≡ asked_by ticket cleanups self.old }
    {
        self.ticket = Some(ticket);
        self.running = false;
        self.owed = cleanups;
    }

    /// Has no further value.
    pub fn end(&mut self, cleanups: Items<Value>)
        ensures { self.new ≡ ended_by cleanups self.old }
    {
        self.running = false;
        self.ended = true;
        self.owed = cleanups;
    }

    /// Takes an answer and runs on. Where memory runs out, nothing has changed.
    pub fn answer(&mut self, answer: Answer) -> Result<(), AllocError>
        ensures ok { OnOk result (self.new ≡ answering answer self.old) }
        ensures err { OnErr result (self.new ≡ self.old) }
    {
        self.answers.push(answer)?;
        self.ticket = None;
        self.running = true;
        Ok(())
    }

    /// Whether a frame pulls it, if it is a generator's.
    fn is_pulled(&self) -> bool
        ensures { result ≡ is_pulled self.now }
    {
        shows_value_now(&self.shown) && !self.ended && !self.running && self.ticket.is_none()
    }

    /// Pulls a generator's start once more, if it waits for that.
    pub fn pull(&mut self)
        requires { self.old.pulls + 1 < 2 ^ 32 }
        ensures { Some self.new ≡ pulled_once true (Some self.old) }
    {
        if self.is_pulled() {
            self.pulls += 1;
            self.running = true;
        }
    }
}

fn shows_value_now(shown: &Option<Outcome>) -> bool
    ensures { result ≡ shows_value shown.now }
{
    match shown {
        Some(Outcome::Value(_)) => true,
        Some(Outcome::Error(_)) => false,
        None => false,
    }
}
