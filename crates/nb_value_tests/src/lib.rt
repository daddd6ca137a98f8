//! Values, streams and graphs through the public calls of `nb_value`, `nb_io` and `nb_graph`. There is nothing here to run
//! but tests.
//!
//! They stand apart from what they test, since a crate that holds tests is proved once more with them.
#![tactic(auto)]

#[cfg(test)]
mod graphs;
#[cfg(test)]
mod streams;
#[cfg(test)]
mod system;
#[cfg(test)]
mod values;
