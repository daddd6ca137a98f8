//! The events and entries of a notebook's log.
#![tactic(auto)]

mod entry;
mod event;
mod item;
mod lines;
mod log;
mod names;
mod object;
mod piece;
mod size;
mod table;
mod tree;

pub use entry::{Entry, Refusal};
pub use event::{Event, Target};
pub use lines::push_entries;
pub use log::Log;
pub use names::{kind_name, refusal_name, refusal_number, refusal_of};
pub use size::entry_size;
pub use table::{push_done_line, push_table_line};
