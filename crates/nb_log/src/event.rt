use nb_sheet::Edit;
use nb_value::{Answer, Text};

/// Which fetch a settlement answers.
#[derive(Debug, Drop)]
pub enum Target {
    Ticket(u64),
    /// The live ticket of the least number with this key.
    Key(Text),
}

/// What one line says.
#[derive(Debug, Drop)]
pub enum Event {
    Edit(Edit),
    Frame,
    Settle { target: Target, answer: Answer },
    Rest,
    Dispose,
}
