use crate::finished::Finished;
use crate::given::Segment;
use nb_value::Outcome;

/// What is to be done for a ready variable.
#[derive(Debug, Drop)]
pub enum Work {
    /// Nothing: its outcome is known.
    Direct(Outcome),
    /// This evaluation.
    Run(Segment),
}

/// Work that was done.
#[derive(Debug, Drop)]
pub enum WorkDone {
    Direct(Outcome),
    Ran(Finished),
}
