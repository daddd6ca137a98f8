//! The words of a command line, read as a command.
#![tactic(auto)]

mod command;
mod number;
mod program;
mod read;

pub use command::{Command, WordsFail};
pub use read::read_words;
