//! The work of one start of a variable, done in slices, so that it can be given up between two of them.
#![tactic(auto)]

mod done;
mod halt;
mod job;
mod machine;
mod run;
mod slices;

pub use done::JobDone;
pub use job::{Job, JobStop};
pub use run::run_job;
pub use slices::SLICE;
