ghost use Rattle.std.specs.Prelude.{◌≡◌, ◌≤◌, ◌<◌, ◌^◌, ◌∷◌, ◌++◌, [], length, drop, slice_get, List, Some, IfOk, IsTrue};
ghost use Rattle.std.specs.Option.{option_copied};
ghost use Rattle.nb_io.specs.declared.spawner.ChildEnd.{ChildEnd};
ghost use Rattle.nb_io.specs.declared.spawner.SpawnFail.TheVariants.{Failed};
ghost use Rattle.nb_io.specs.Calls.{Fails, counted, uncalled};
ghost use Rattle.nb_io.specs.Causes.{HasCauseAt};
ghost use Rattle.nb_io.specs.Runs.{AddsAnswer, AnswersRun, ends_taken};

use crate::calls::Calls;
use crate::{ChildEnd, ChildRun, SpawnFail, Spawner};
use nb_value::{Argv, Numbers};
use std::alloc::{AllocError, Global};
use std::marker::Model;

/// The ends of the runs to come, which contracts see as a list.
#[derive(Drop)]
pub struct ChildEnds {
    items: Vec<ChildEnd>,
}

impl Model for ChildEnds {
    ghost use Rattle.std.specs.Prelude.{List};
    ghost use Rattle.nb_io.specs.declared.spawner.ChildEnd.{ChildEnd};

    ghost Value = { List ChildEnd };

    ghost view = { λ e. e.items.items };
}

impl ChildEnds {
    /// The ends in this order.
    pub fn from_vec(items: Vec<ChildEnd>) -> ChildEnds
        ensures { result ≡ items.items }
    {
        ChildEnds { items }
    }

    fn get(&self, i: usize) -> Option<&ChildEnd>
        ensures value { option_copied result ≡ slice_get self.now i }
        ensures small { length self.now < 2 ^ 63 }
    {
        self.items.get(i)
    }
}

fn copy_of(alloc: Global, end: &ChildEnd) -> Result<ChildEnd, AllocError>
    ensures { IfOk result (λ e. e ≡ end.now) }
{
    Ok(ChildEnd {
        status: end.status,
        output: end.output.copy(alloc)?,
    })
}

fn copy_of_answer(
    alloc: Global,
    answer: &Result<ChildEnd, SpawnFail>,
) -> Result<Result<ChildEnd, SpawnFail>, AllocError>
    ensures { IfOk result (λ copy. copy ≡ answer.now) }
{
    match answer {
        Ok(end) => Ok(Ok(copy_of(alloc, end)?)),
        Err(fail) => Ok(Err(*fail)),
    }
}

// The answer to a run that ends so, unless it is to fail.
fn answer_of(
    alloc: Global,
    fails: bool,
    limit: usize,
    end: &ChildEnd,
) -> Result<Result<ChildEnd, SpawnFail>, AllocError>
    ensures { (rest : List ChildEnd) → IfOk result (AnswersRun (IsTrue fails) limit (end.now ∷ rest)) }
{
    if fails {
        return Ok(Err(SpawnFail::Failed));
    }
    if end.output.len() > limit {
        return Ok(Err(SpawnFail::TooLong));
    }
    Ok(Ok(copy_of(alloc, end)?))
}

// How many of the ends to come an answer uses up.
fn uses_up(answer: &Result<ChildEnd, SpawnFail>) -> usize
    ensures { result ≡ ends_taken answer.now }
{
    match answer {
        Ok(_) | Err(SpawnFail::TooLong) => 1,
        Err(_) => 0,
    }
}

/// Programs that end as a list says, one run after another, whatever their words; it tells its runs. `failing` has the
/// numbers of the calls that fail, counted from 1. A call that fails uses up no end, nor does one without memory, and a
/// call after the last end fails too. It keeps all runs in memory, with a copy of each output.
#[derive(Drop)]
pub struct MemSpawner {
    alloc: Global,
    answers: ChildEnds,
    given: usize,
    calls: Calls,
    faults: u64,
    past: Vec<ChildRun>,
    ghost within: { given ≤ length answers },
}

impl MemSpawner {
    /// No runs so far, and these ends to come. Its calls take their memory from `alloc`.
    pub fn new(alloc: Global, answers: ChildEnds, failing: Numbers) -> MemSpawner
        ensures runs { ⟦<MemSpawner as Spawner>⟧.runs result ≡ Some [] }
        ensures faults { ⟦<MemSpawner as Spawner>⟧.faults result ≡ 0 }
        ensures left { drop result.given result.answers ≡ answers }
        ensures calls { result.calls ≡ uncalled failing }
    {
        MemSpawner {
            alloc,
            answers,
            given: 0,
            calls: Calls::new(failing),
            faults: 0,
            past: Vec::new(alloc),
        }
    }

    // How a call is answered, by the first end that is left.
    fn answer(&self, fails: bool, limit: usize) -> Result<Result<ChildEnd, SpawnFail>, AllocError>
        ensures answers { IfOk result (AnswersRun (IsTrue fails) limit (drop self.now.given self.now.answers)) }
        ensures within { self.now.given ≤ length self.now.answers }
        ensures small { length self.now.answers < 2 ^ 63 }
    {
        match self.answers.get(self.given) {
            None => Ok(Err(SpawnFail::Failed)),
            Some(end) => answer_of(self.alloc, fails, limit, end),
        }
    }
}

impl Spawner for MemSpawner {
    ghost runs = { λ p. Some p.past.items };

    ghost faults = { λ p. p.faults };

    fn run(&mut self, argv: &Argv, limit: usize) -> Result<ChildEnd, SpawnFail>
        ensures within { IfOk result (λ end. length end.output ≤ limit) }
        ensures adds { AddsAnswer (Some self.old.past.items) (Some self.new.past.items) argv.now limit result }
        ensures cause { HasCauseAt Failed self.old.faults self.new.faults result }
        ensures calls { self.new.calls ≡ counted self.old.calls }
        ensures answers { AnswersRun (Fails self.old.calls) limit (drop self.old.given self.old.answers) result }
        ensures left { drop self.new.given self.new.answers ≡ drop (ends_taken result) (drop self.old.given self.old.answers) }
    {
        let fails = self.calls.count();
        let given = self.answer(fails, limit)?;
        let answer = copy_of_answer(self.alloc, &given)?;
        let argv = argv.copy(self.alloc)?;
        self.past.push(ChildRun {
            argv,
            limit,
            answer,
        })?;
        if let Err(SpawnFail::Failed) = given {
            self.faults = self.faults.saturating_add(1);
        }
        self.given += uses_up(&given);
        given
    }
}
