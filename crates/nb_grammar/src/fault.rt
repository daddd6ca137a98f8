use std::alloc::AllocError;

/// The first fault of a list of words.
#[derive(Clone, Copy, Debug, PartialEq, Eq)]
pub enum Fault {
    /// A word with which no cell goes on. The number is how many words are left, with that one.
    Unexpected(usize),
    /// The words are no cell, but one begins with them.
    Ended,
    /// A bracket that opens one too many. The number is how many words are left, with that one.
    TooDeep(usize),
}

/// Why no cell was read.
#[derive(Debug, Drop)]
pub enum Stop {
    Memory,
    Fault(Fault),
}

impl From<AllocError> for Stop {
    ghost use Rattle.std.specs.Prelude.{◌≡◌};
    ghost use Rattle.nb_grammar.specs.declared.fault.Stop.TheVariants.{Memory};

    ghost from_gives = { λ _ e. e ≡ Memory };

    fn from(_refused: AllocError) -> Stop {
        Stop::Memory
    }
}
