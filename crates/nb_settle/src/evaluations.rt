//! Evaluations that are taken up where they were left.

ghost use Rattle.std.specs.Prelude.{◌≡◌, ◌≢◌, ℕ, Some, None, Ok, IfOk, OnOk, OnErr};
ghost use Rattle.std.specs.Ordering.{nat_cmp};
ghost use Rattle.std.specs.BTreeMap.{get_by};
ghost use Rattle.nb_machine.specs.Parked.{IsLeftOf};
ghost use Rattle.nb_settle.specs.Evaluations.{kept, unless_over, IsNothing, KeepsOthers, IsWithout, IsWithRest};

use nb_eval::{Finished, Segment};
use nb_machine::{Machine, Parked, begin};
use nb_value::{Answer, Tree};
use std::alloc::{AllocError, Global};
use std::collections::BTreeMap;
use std::mem::drop;

/// The suspended evaluations of variables, by the variables' numbers, at most one for each.
#[derive(Drop)]
pub struct Evaluations {
    alloc: Global,
    parked: BTreeMap<u32, Parked>,
}

impl Evaluations {
    /// No evaluations. It takes no memory yet.
    pub fn new(alloc: Global) -> Evaluations
        ensures { IsNothing result }
    {
        Evaluations {
            alloc,
            parked: BTreeMap::new(alloc),
        }
    }

    /// The evaluation of a variable's segment. It is made from where the variable's suspended evaluation stands, where that
    /// lacks the segment's last answer alone, or a pull alone, and then costs what comes after that; else from the start. What is
    /// left of it is kept for the variable. It fails only without memory, and then nothing is kept for the variable. What is kept
    /// for others stays.
    pub fn evaluate(&mut self, var: u32, segment: Segment) -> Result<Finished, AllocError>
        ensures segment { IfOk result (λ f. f.segment ≡ segment) }
        ensures rest { OnOk result (IsWithRest self.old var segment self.new) }
        ensures err { OnErr result (IsWithout self.old var self.new) }
    {
        let machine = self.machine_of(var, segment)?;
        let (finished, parked) = run_to_end(self.alloc, machine)?;
        self.keep(var, parked)?;
        Ok(finished)
    }

    /// Forgets the suspended evaluation of a variable, if one is kept. What is kept for others stays. It takes no memory.
    pub fn forget(&mut self, var: u32)
        ensures { IsWithout self.old var self.new }
    {
        drop(self.parked.remove(&var));
    }

    // Keeps what is left of an evaluation for its variable, for which nothing is kept, unless it is over.
    #[tactic(auto, using(crate::proofs::EvaluationLemmas::kept_unless_over))]
    fn keep(&mut self, var: u32, parked: Parked) -> Result<(), AllocError>
        requires { kept self.old var ≡ None }
        ensures here { OnOk result (kept self.new var ≡ unless_over parked) }
        ensures err { OnErr result (kept self.new var ≡ None) }
        ensures others { KeepsOthers self.old var self.new }
    {
        if parked.is_over() {
            drop(parked);
            return Ok(());
        }
        insert(&mut self.parked, var, parked)
    }

    // A machine of this segment. What was kept for the variable is used up.
    fn machine_of(&mut self, var: u32, segment: Segment) -> Result<Machine, AllocError>
        ensures machine { IfOk result (λ m. m.standing.segment ≡ segment) }
        ensures used { IsWithout self.old var self.new }
    {
        if let Some(parked) = self.parked.remove(&var) {
            if let Some(machine) = taken_up(self.alloc, parked, &segment)? {
                drop(segment);
                return Ok(machine);
            }
        }
        match begin(self.alloc, segment) {
            Ok(machine) => Ok(machine),
            Err((segment, refused)) => {
                drop(segment);
                Err(refused)
            }
        }
    }
}

// Puts a value in for a variable that has none.
fn insert<T: Drop>(values: &mut BTreeMap<u32, T>, var: u32, value: T) -> Result<(), AllocError>
    requires { get_by (nat_cmp var) values.old ≡ None }
    ensures here { OnOk result (get_by (nat_cmp var) values.new ≡ Some value) }
    ensures err { OnErr result (get_by (nat_cmp var) values.new ≡ None) }
    ensures others { (other : ℕ) → other ≢ var → get_by (nat_cmp other) values.new ≡ get_by (nat_cmp other) values.old }
{
    drop(values.insert(var, value)?);
    Ok(())
}

// The machine that goes on from here over this segment, if it leads to it.
fn taken_up(alloc: Global, parked: Parked, segment: &Segment) -> Result<Option<Machine>, AllocError>
    ensures { (m : Machine) → result ≡ Ok (Some m) → m.standing.segment ≡ segment.now }
{
    let Some(machine) = gone_on(alloc, parked, segment)? else {
        return Ok(None);
    };
    if machine.segment().same(segment) {
        return Ok(Some(machine));
    }
    drop(machine);
    Ok(None)
}

// The machine that goes on from here, with the last answer of a segment or with a pull.
fn gone_on(
    alloc: Global,
    parked: Parked,
    segment: &Segment,
) -> Result<Option<Machine>, AllocError> {
    if parked.needs_answer() {
        return match segment.answers.as_slice().last() {
            Some(answer) => answered(parked.resume(alloc, answer.copy(alloc)?)),
            None => {
                drop(parked);
                Ok(None)
            }
        };
    }
    if parked.waits_for_pull() && parked.pulls() < u32::MAX {
        return Ok(Some(parked.pull()));
    }
    drop(parked);
    Ok(None)
}

fn answered(
    resumed: Result<Machine, (Parked, Answer, AllocError)>,
) -> Result<Option<Machine>, AllocError> {
    match resumed {
        Ok(machine) => Ok(Some(machine)),
        Err((parked, answer, refused)) => {
            drop(parked);
            drop(answer);
            Err(refused)
        }
    }
}

// Steps a machine to its ending.
fn run_to_end(alloc: Global, machine: Machine) -> Result<(Finished, Parked), AllocError>
    ensures segment { IfOk result (λ r. r.0.segment ≡ machine.standing.segment) }
    ensures parked { IfOk result (λ r. IsLeftOf machine.standing.segment r.1) }
{
    let mut machine = machine;
    while machine.step(alloc, u32::MAX)?.is_none() {}
    Ok(machine.finish())
}
