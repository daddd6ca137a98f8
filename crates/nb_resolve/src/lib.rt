//! What the names of a notebook stand for: resolution in a module, and the inputs of variables.
#![tactic(auto)]

mod input;
mod names;
mod resolution;

pub use input::Input;
pub use names::{inputs, inputs_where, is_duplicate, resolve, variables};
pub use resolution::Resolution;
