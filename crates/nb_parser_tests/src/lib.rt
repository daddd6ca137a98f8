//! Texts of cells through the public calls of `nb_lexer`, `nb_syntax` and `nb_parser`. There is nothing here to run but tests.
//!
//! They stand apart from what they test, since a crate that holds tests is proved once more with them.
#![tactic(auto)]

#[cfg(test)]
mod cells;
#[cfg(test)]
mod words;
