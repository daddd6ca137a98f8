//! Jobs that were done.

ghost use Rattle.nb_eval.specs.contracts.given.Segment as segment_row;
ghost use Rattle.nb_jobs.specs.Left.{IsLeftBy, left_prop};

use nb_eval::WorkDone;
use nb_machine::Parked;

/// A job that was done, and what is parked of its evaluation: nothing, or what that evaluation left.
#[derive(Drop)]
pub struct JobDone {
    /// The variable, counted from 1.
    pub var: u32,
    /// The place of its `pending` entry.
    pub start: u64,
    pub done: WorkDone,
    /// Where the evaluation can be taken up again.
    pub parked: Option<Parked>,
    pub ghost left: { IsLeftBy parked done } by { left_prop segment_row.the_row.coded parked done },
}
