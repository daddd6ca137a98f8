//! The modules and variables that a derive makes.
#![tactic(auto)]

mod copying;
mod edits;

pub use copying::derived;
pub use edits::apply;
