use nb_value::{CellError, Value};

/// What became of work that was done.
#[derive(Clone, Copy, Debug, PartialEq, Eq)]
pub enum Placed {
    /// Its outcome is shown, by the entry at this place.
    Shown(u64),
    /// It isn't the work of its variable any more, and nothing changed. Both starts are by number.
    Stale { held: u64, now: u64 },
}

/// What a variable shows.
#[derive(Clone, Copy, Debug)]
pub enum Shown<'a> {
    /// It has no start.
    Idle,
    /// It has one, which shows nothing yet.
    Waiting,
    Value(&'a Value),
    Error(&'a CellError),
}
