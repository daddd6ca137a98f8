//! The machine of a job's segment.

ghost use Rattle.std.specs.Prelude.{◌≡◌, ◌≤◌, Ok, Some, MatchResult};
ghost use Rattle.nb_machine.specs.declared.machine.Machine.{Machine};
ghost use Rattle.nb_jobs.specs.Jobs.{GoesOn, TakesUp, made_by, made_before};

use nb_eval::Segment;
use nb_machine::{Machine, Parked, begin};
use nb_value::{Answer, Tree};
use std::alloc::{AllocError, Global};
use std::mem::drop;

// The machine of a segment: taken up from what is parked, where that leads to this segment, and else begun. Where memory ran
// out, the segment comes back.
pub(crate) fn machine_of(
    alloc: Global,
    segment: Segment,
    parked: Option<Parked>,
) -> Result<Machine, Segment>
    ensures { MatchResult result (TakesUp segment (made_before parked)) (λ back. back ≡ segment) }
{
    if let Some(parked) = parked {
        match taken_up(alloc, parked, &segment) {
            Ok(Some(machine)) => {
                drop(segment);
                return Ok(machine);
            }
            Ok(None) => {}
            Err(_) => return Err(segment),
        }
    }
    match begin(alloc, segment) {
        Ok(machine) => Ok(machine),
        Err((segment, _)) => Err(segment),
    }
}

// The machine that goes on from here over this segment, if it leads to it.
fn taken_up(alloc: Global, parked: Parked, segment: &Segment) -> Result<Option<Machine>, AllocError>
    ensures { (m : Machine) → result ≡ Ok (Some m) → TakesUp segment.now (made_by parked) m }
{
    let Some(machine) = gone_on(alloc, parked, segment)? else {
        return Ok(None);
    };
    if machine.segment().same(segment) {
        return Ok(Some(machine));
    }
    drop(machine);
    Ok(None)
}

// The machine that goes on from here, with the last answer of a segment or with a pull.
#[tactic(auto, using(crate::proofs::Leads::goes_on_with, crate::proofs::Leads::goes_on_pulled))]
fn gone_on(alloc: Global, parked: Parked, segment: &Segment) -> Result<Option<Machine>, AllocError>
    ensures { (m : Machine) → result ≡ Ok (Some m) → GoesOn (made_by parked) m }
{
    if parked.needs_answer() {
        return match segment.answers.as_slice().last() {
            Some(answer) => answered(parked.resume(alloc, answer.copy(alloc)?)),
            None => {
                drop(parked);
                Ok(None)
            }
        };
    }
    if parked.waits_for_pull() && parked.pulls() < u32::MAX {
        return Ok(Some(parked.pull()));
    }
    drop(parked);
    Ok(None)
}

// A machine that was resumed; without memory, neither what was parked nor the answer is kept.
fn answered(
    resumed: Result<Machine, (Parked, Answer, AllocError)>,
) -> Result<Option<Machine>, AllocError>
    ensures { (m : Machine) → result ≡ Ok (Some m) → resumed ≡ Ok m }
{
    match resumed {
        Ok(machine) => Ok(Some(machine)),
        Err((parked, answer, refused)) => {
            drop(parked);
            drop(answer);
            Err(refused)
        }
    }
}
