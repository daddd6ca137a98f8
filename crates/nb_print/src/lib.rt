//! The printing of a core: its log, the table of what stands, and the number of entries; and the summary of a made notebook.
#![tactic(auto)]

mod law;
mod summary;
mod table;

pub use law::law_of_lines;
pub use summary::{Making, print_summary};
pub use table::{print, print_entry, print_log, print_table};
