//! An evaluation in slices.

ghost use Rattle.std.specs.Prelude.{◌≡◌, ◌≤◌, IfOk, IfErr, OnOk};
ghost use Rattle.nb_eval.specs.Evaluation.{charges};
ghost use Rattle.nb_machine.specs.Parked.{IsLeftOf};
ghost use Rattle.nb_jobs.specs.Jobs.{IsRestOf, IsAskedBetween, made_before, unless_over};
ghost use Rattle.nb_jobs.specs.Halts.{IsHaltOf, Tells};

use crate::halt::Halt;
use crate::machine::machine_of;
use nb_eval::{Finished, Segment};
use nb_machine::{Machine, Parked};
use nb_poll::Poll;
use std::alloc::Global;
use std::mem::drop;

/// How many charges an evaluation makes before it asks whether it is still wanted.
pub const SLICE: u32 = 4096;

// The evaluation of a segment and what can be taken up again of it, unless the poll gives a number before its ending.
#[tactic(auto, using(crate::proofs::Asked::asked_from))]
pub(crate) fn evaluate<P: Poll>(
    alloc: Global,
    segment: Segment,
    parked: Option<Parked>,
    poll: &mut P,
) -> Result<(Finished, Option<Parked>), Halt>
    ensures segment { IfOk result (λ r. r.0.segment ≡ segment) }
    ensures rest { IfOk result (λ r. IsRestOf r.1 segment) }
    ensures quiet { OnOk result (P.given poll.new ≡ P.given poll.old) }
    ensures asked { OnOk result (IsAskedBetween (made_before parked) (charges segment) (P.asked poll.old) (P.asked poll.new)) }
    ensures back { IfErr result (λ halt. IsHaltOf segment halt) }
    ensures told { IfErr result (λ halt. Tells halt (P.given poll.old) (P.given poll.new) (P.last poll.new)) }
    ensures later { P.asked poll.old ≤ P.asked poll.new }
    ensures kept { P.kept poll.new ≡ P.kept poll.old }
{
    let machine = match machine_of(alloc, segment, parked) {
        Ok(machine) => machine,
        Err(segment) => return Err(Halt::Memory(segment)),
    };
    let (finished, parked) = run_slices(alloc, machine, poll)?;
    Ok((finished, unless_over(parked)))
}

// Steps a machine to its ending, and asks the poll after each slice before that.
#[tactic(auto, using(crate::proofs::Asked::slice_more))]
fn run_slices<P: Poll>(
    alloc: Global,
    machine: Machine,
    poll: &mut P,
) -> Result<(Finished, Parked), Halt>
    ensures segment { IfOk result (λ r. r.0.segment ≡ machine.standing.segment) }
    ensures left { IfOk result (λ r. IsLeftOf machine.standing.segment r.1) }
    ensures quiet { OnOk result (P.given poll.new ≡ P.given poll.old) }
    ensures asked { OnOk result (IsAskedBetween machine.standing.charges (charges machine.standing.segment) (P.asked poll.old) (P.asked poll.new)) }
    ensures back { IfErr result (λ halt. IsHaltOf machine.standing.segment halt) }
    ensures told { IfErr result (λ halt. Tells halt (P.given poll.old) (P.given poll.new) (P.last poll.new)) }
    ensures later { P.asked poll.old ≤ P.asked poll.new }
    ensures kept { P.kept poll.new ≡ P.kept poll.old }
{
    let mut machine = machine;
    'slices: loop {
        match machine.step(alloc, SLICE) {
            Ok(Some(())) => return Ok(machine.finish()),
            Ok(None) => {
                if let Some(newer) = poll.newer() {
                    return Err(Halt::Newer(machine.into_segment(), newer));
                }
            }
            Err(_) => return Err(Halt::Memory(machine.into_segment())),
        }
    }
}

// What can be taken up again: nothing of an evaluation that is over.
#[tactic(auto, using(crate::proofs::Left::kept_unless_over))]
fn unless_over(parked: Parked) -> Option<Parked>
    ensures { result ≡ unless_over parked }
{
    if parked.is_over() {
        drop(parked);
        return None;
    }
    Some(parked)
}
