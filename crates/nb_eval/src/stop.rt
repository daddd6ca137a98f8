use nb_value::{CellError, Text, Value};
use std::alloc::AllocError;

/// What ends an evaluation before its end.
#[derive(Debug, Drop)]
pub enum Stop {
    /// No evaluation ends so: memory ran out.
    Memory,
    /// As many values were yielded as pulls were made.
    Paused,
    /// No answer was left for a fetch of this key.
    Needs(Text),
    /// This value was returned.
    Done(Value),
    Failed(CellError),
}

impl From<AllocError> for Stop {
    ghost use Rattle.std.specs.Prelude.{◌≡◌};
    ghost use Rattle.nb_eval.specs.declared.stop.Stop.TheVariants.{Memory};

    ghost from_gives = { λ _ e. e ≡ Memory };

    fn from(_refused: AllocError) -> Stop {
        Stop::Memory
    }
}
