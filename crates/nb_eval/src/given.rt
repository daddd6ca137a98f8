use nb_syntax::Cell;
use nb_value::{Answer, CellError, Items, Pairs, Text, Value};

/// All that an evaluation is given: a cell, the value of each free name, the answers to its fetches
/// and the number of pulls, at least 1.
#[derive(Debug, Drop)]
pub struct Segment {
    pub cell: Cell,
    pub inputs: Pairs<Value>,
    pub answers: Items<Answer>,
    pub pulls: u32,
}

/// How an evaluation ends.
#[derive(Debug, Drop)]
pub enum Ending {
    /// It yielded as often as it was pulled.
    Paused,
    /// No answer was left for a fetch of this key.
    Needs(Text),
    Done(Value),
    Failed(CellError),
}

/// What an evaluation gives: how many values it yielded and the last of them, its cleanups in order,
/// and how it ended.
#[derive(Debug, Drop)]
pub struct RunEnd {
    pub made: u32,
    pub last: Option<Value>,
    pub cleanups: Items<Value>,
    pub ending: Ending,
}
