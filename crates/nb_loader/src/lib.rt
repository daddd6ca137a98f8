//! Loaders of data: the program that a notebook names for a key is run once for each fetch of it, and its answer put into
//! the log.
#![tactic(auto)]

mod answer;
mod load;
mod step;
mod ticket;

pub use load::load_one;
pub use step::LoadStep;
