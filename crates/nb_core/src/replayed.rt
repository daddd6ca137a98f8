use nb_runs::{Started, Ticket};
use nb_sheet::Sheet;

/// The state that a log leaves.
#[derive(Drop)]
pub struct Reading {
    /// The builtins, the modules and the rows of the variables.
    pub sheet: Sheet,
    /// The start of each variable, by number from 1, none for an idle one. A start has what it rests on, its answers, what it
    /// shows and what it owes.
    pub starts: Vec<Option<Started>>,
    /// Whether the notebook is disposed of.
    pub disposed: bool,
    /// The tickets, by number from 1.
    pub tickets: Vec<Ticket>,
}
