//! The work of a machine's ready variables, one after the other, with evaluations that are taken up where they were left.
#![tactic(auto)]

mod evaluations;
mod settler;

pub use evaluations::Evaluations;
pub use settler::{Settler, settle};
