//! Which variables have a name in a module, and which numbers lead to which: triples and links that are put and taken
//! away one at a time, and all undone back to a mark without memory.
#![tactic(auto)]

mod found;
mod index;
mod keys;
mod row;
mod table;

pub use found::Found;
pub use index::Index;
