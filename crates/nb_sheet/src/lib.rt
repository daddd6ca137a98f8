//! The sheet of a notebook: its modules and variables, and what edits make of them.
#![tactic(auto)]

mod adding;
mod checks;
mod copied;
mod copies;
mod counting;
mod edit;
mod names;
mod refused;
mod row;
mod rows;
mod sheet;
mod tree;

pub use copied::{ModuleList, copied_modules, is_copied};
pub use copies::{Copies, NewModule, NewVar, NewVars};
pub use edit::{Edit, Specifier, Specifiers};
pub use refused::Refused;
pub use row::{BodyOf, VarRow};
pub use sheet::Sheet;
