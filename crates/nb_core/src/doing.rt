ghost use Rattle.std.specs.Prelude.{IfOk};
ghost use Rattle.nb_eval.specs.Work.{IsOf};

use nb_eval::{Work, WorkDone, evaluate};
use std::alloc::{AllocError, Global};
use std::mem::drop;

/// Does the work of a variable: one evaluation, where there is one. It fails only without memory.
pub fn done_of(alloc: Global, work: Work) -> Result<WorkDone, AllocError>
    ensures { IfOk result (λ done. IsOf work done) }
{
    match work {
        Work::Direct(outcome) => Ok(WorkDone::Direct(outcome)),
        Work::Run(segment) => match evaluate(alloc, segment) {
            Ok(finished) => Ok(WorkDone::Ran(finished)),
            Err((segment, refused)) => {
                drop(segment);
                Err(refused)
            }
        },
    }
}
