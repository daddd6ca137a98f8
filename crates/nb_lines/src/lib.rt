//! The lines of a program's input: which of them is read, and the event that it says.
#![tactic(auto)]

mod edits;
mod fields;
mod form;
mod keys;
mod line;
mod lines;
mod script;
mod settlements;
mod specifiers;

pub use lines::{line_number, read_lines};
pub use script::{BadReason, LineFail, ScriptLine, Scripts};
