//! The lines of made notebooks: so many cells by numbers drawn from a seed, and a few lines after them.
#![tactic(auto)]

mod cell;
mod draws;
mod lines;

pub use lines::make;
