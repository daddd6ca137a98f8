//! What words are a cell, and the first fault of words that are none. The rules stand in specs, and what follows from them in proofs.
#![tactic(auto)]

mod fault;

pub use fault::{Fault, Stop};
