//! Reads the text of a cell into its tree.
#![tactic(auto)]

mod cell;
mod error;
mod expressions;
mod functions;
mod keep;
mod laws;
mod marks;
mod nodes;
mod operators;
mod parse;
mod statements;

pub use error::ParseError;
pub use laws::{law_of_cells, law_of_printing};
pub use parse::parse_cell;
