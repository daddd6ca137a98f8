//! Who needs whom, over numbers: what is reached from some of them, which need themselves, and their ranks.
#![tactic(auto)]

mod graph;
mod ranks;
mod reach;

pub use graph::Graph;
