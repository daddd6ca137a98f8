ghost use Rattle.std.specs.Prelude.{◌≡◌};
ghost use Rattle.nb_eval.specs.Run.{start_state};

use crate::locals::Locals;
use nb_value::{Items, Value};
use std::alloc::Global;

/// The fuel of a pull.
pub const FULL_FUEL: u64 = 1_000_000;

/// What evaluation hands on from step to step.
#[derive(Debug, Drop)]
pub struct State {
    /// What is left of the pull's fuel.
    pub fuel: u64,
    /// How many charges were made, with one that failed.
    pub charges: u64,
    /// The locals that hold, in the order in which they were made.
    pub locals: Locals,
    /// How many answers were taken.
    pub taken: usize,
    /// How many fetches were made in this pull.
    pub fetches: u64,
    /// The values that were yielded, in order.
    pub yields: Items<Value>,
    /// The values to clean up, in order.
    pub cleanups: Items<Value>,
}

impl State {
    /// Where evaluation begins. It takes no memory.
    pub fn new(alloc: Global) -> State
        ensures { result ≡ start_state }
    {
        State {
            fuel: FULL_FUEL,
            charges: 0,
            locals: Locals::new(alloc),
            taken: 0,
            fetches: 0,
            yields: Items::new(alloc),
            cleanups: Items::new(alloc),
        }
    }
}
