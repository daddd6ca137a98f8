//! Evaluations that stopped before their ending.

ghost use Rattle.std.specs.Prelude.{◌≡◌};
ghost use Rattle.nb_jobs.specs.Halts.{stop_of};

use crate::job::{Job, JobStop};
use nb_eval::{Segment, Work};

// Why an evaluation stopped before its ending. Its segment comes back.
#[derive(Drop)]
pub(crate) enum Halt {
    // There is this newer number.
    Newer(Segment, u64),
    // There was no memory.
    Memory(Segment),
}

impl Halt {
    // Why the job of this variable and start stopped.
    pub(crate) fn of_job(self, var: u32, start: u64) -> JobStop
        ensures { result ≡ stop_of var start self }
    {
        match self {
            Halt::Newer(segment, newer) => JobStop::Cancelled {
                job: Job {
                    var,
                    start,
                    work: Work::Run(segment),
                    parked: None,
                },
                newer,
            },
            Halt::Memory(segment) => JobStop::Memory(Job {
                var,
                start,
                work: Work::Run(segment),
                parked: None,
            }),
        }
    }
}
