ghost use Rattle.std.specs.Prelude.{◌≡◌, []};
ghost use Rattle.nb_machine.specs.Machine.{spot};
ghost use Rattle.nb_machine.specs.Held.{start_held};

use crate::instr::Slot;
use crate::pile::Pile;
use nb_eval::state::State;
use nb_value::Value;
use std::alloc::Global;

/// Where a machine stands, beside what it holds: the next instruction, and the stack.
#[derive(Drop)]
pub struct Spot {
    pub pc: usize,
    pub slots: Pile<Slot>,
}

/// What a machine holds: a state without its yields, of which there are only their number and the last.
#[derive(Drop)]
pub struct Held {
    pub state: State,
    pub made: u32,
    pub last: Option<Value>,
}

impl Spot {
    /// At the first instruction, with nothing on the stack. It takes no memory.
    pub fn new(alloc: Global) -> Spot
        ensures { result ≡ spot 0 [] }
    {
        Spot {
            pc: 0,
            slots: Pile::new(alloc),
        }
    }
}

impl Held {
    /// What is held at the start. It takes no memory.
    pub fn new(alloc: Global) -> Held
        ensures { result ≡ start_held }
    {
        Held {
            state: State::new(alloc),
            made: 0,
            last: None,
        }
    }
}
