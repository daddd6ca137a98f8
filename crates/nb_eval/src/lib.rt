//! The evaluation of cells.
#![tactic(auto)]

pub mod call;
mod copy;
mod done;
pub mod effects;
mod expr;
mod finished;
mod given;
pub mod inputs;
mod law;
pub mod locals;
pub mod members;
pub mod names;
pub mod operate;
pub mod path;
pub mod replay;
pub mod state;
pub mod steps;
mod stmt;
pub mod stop;
mod work;

pub use done::is_work_of;
pub use finished::Finished;
pub use given::{Ending, RunEnd, Segment};
pub use law::{law_of_answers, law_of_loops, law_of_plain_cells, law_of_pulls};
pub use replay::{charges, evaluate};
pub use work::{Work, WorkDone};
