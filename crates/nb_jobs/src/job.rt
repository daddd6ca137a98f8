use nb_eval::Work;
use nb_machine::Parked;

/// What is to be done for one start of a variable, and what is parked of its evaluation, if anything is.
#[derive(Drop)]
pub struct Job {
    /// The variable, counted from 1.
    pub var: u32,
    /// The place of its `pending` entry.
    pub start: u64,
    pub work: Work,
    /// What was left of its evaluation at an earlier ending. It saves time alone: where it doesn't lead to the job's segment by
    /// an answer or a pull, it is let go of.
    pub parked: Option<Parked>,
}

/// Why a job wasn't done. It comes back with its variable, its start and its work.
#[derive(Drop)]
pub enum JobStop {
    /// The poll gave this number. Nothing is parked any more.
    Cancelled { job: Job, newer: u64 },
    /// There was no memory. Nothing is parked any more.
    Memory(Job),
}
