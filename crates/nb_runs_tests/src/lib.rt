//! Starts, tickets and the states of variables through the public calls of `nb_runs`. There is nothing here to run but tests.
//!
//! They stand apart from what they test, since a crate that holds tests is proved once more with them.
#![tactic(auto)]

#[cfg(test)]
mod made;
#[cfg(test)]
mod states;
#[cfg(test)]
mod steps;
#[cfg(test)]
mod waiting;
