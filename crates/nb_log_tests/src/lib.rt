//! Edits, names, entries and lines through the public calls of `nb_sheet`, `nb_resolve`, `nb_log` and `nb_lines`. There is
//! nothing here to run but tests.
//!
//! They stand apart from what they test, since a crate that holds tests is proved once more with them.
#![tactic(auto)]

#[cfg(test)]
mod edits;
#[cfg(test)]
mod entries;
#[cfg(test)]
mod lines;
#[cfg(test)]
mod names;
