//! The doing of jobs.

ghost use Rattle.std.specs.Prelude.{◌≡◌, ◌≤◌, IfOk, IfErr, IsOk, OnOk};
ghost use Rattle.nb_jobs.specs.Jobs.{IsDone, IsBack, IsKnown, IsAskedOften, StopTells, made_before};

use crate::done::JobDone;
use crate::job::{Job, JobStop};
use crate::slices::evaluate;
use nb_eval::{Work, WorkDone};
use nb_poll::Poll;
use std::alloc::Global;
use std::mem::drop;

/// Does a job. An outcome that is known is its result at once. Else it makes the evaluation, from where that was parked, in
/// slices of 4,096 charges, and asks the poll after each slice but the last; it goes on as long as the poll gives no number.
///
/// What is parked with the job is taken up where an answer, or a pull, leads from there to the job's segment, and else let go
/// of: it saves time alone. What can be taken up again of this evaluation is parked with the result.
///
/// It stops where the poll gives a number, which it tells, or without memory. The job then comes back, to be done anew, with
/// nothing parked. It takes time and memory in proportion to what is charged, and time linear in the segment.
pub fn run_job<P: Poll>(alloc: Global, job: Job, poll: &mut P) -> Result<JobDone, JobStop>
    ensures done { IfOk result (λ done. IsDone job done) }
    ensures known { IsKnown job.work → IsOk result }
    ensures quiet { OnOk result (P.given poll.new ≡ P.given poll.old) }
    ensures asked { OnOk result (IsAskedOften job.work (made_before job.parked) (P.asked poll.old) (P.asked poll.new)) }
    ensures back { IfErr result (λ stop. IsBack job stop) }
    ensures told { IfErr result (λ stop. StopTells stop (P.given poll.old) (P.given poll.new) (P.last poll.new)) }
    ensures later { P.asked poll.old ≤ P.asked poll.new }
    ensures kept { P.kept poll.new ≡ P.kept poll.old }
{
    let Job {
        var,
        start,
        work,
        parked,
    } = job;
    match work {
        Work::Direct(outcome) => {
            drop(parked);
            Ok(JobDone {
                var,
                start,
                done: WorkDone::Direct(outcome),
                parked: None,
            })
        }
        Work::Run(segment) => match evaluate(alloc, segment, parked, poll) {
            Ok((finished, parked)) => Ok(JobDone {
                var,
                start,
                done: WorkDone::Ran(finished),
                parked,
            }),
            Err(halt) => Err(halt.of_job(var, start)),
        },
    }
}
