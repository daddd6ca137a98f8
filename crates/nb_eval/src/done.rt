ghost use Rattle.std.specs.Prelude.{◌↔◌, IsTrue};
ghost use Rattle.nb_eval.specs.Work.{IsOf};

use crate::work::{Work, WorkDone};
use nb_value::Tree;

/// Whether this was done of that work. It takes no memory.
pub fn is_work_of(work: &Work, done: &WorkDone) -> bool
    ensures { IsTrue result ↔ IsOf work.now done.now }
{
    match (work, done) {
        (Work::Direct(outcome), WorkDone::Direct(known)) => known.same(outcome),
        (Work::Run(segment), WorkDone::Ran(finished)) => finished.segment().same(segment),
        _ => false,
    }
}
