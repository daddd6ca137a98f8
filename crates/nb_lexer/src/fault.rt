use std::alloc::{AllocError, AllocFailed};

/// Why a text has no tokens: the first fault from the left. Places are in bytes, from 0.
#[derive(Clone, Copy, Debug, PartialEq, Eq)]
pub enum LexError {
    /// A character that begins no token, a control character inside quotes, or a letter or digit right behind a number.
    BadCharacter(usize),
    /// The opening quote of a text that isn't closed.
    OpenText(usize),
    /// A backslash inside quotes that begins no escape.
    BadEscape(usize),
    /// The first digit of a number above 9223372036854775807.
    TooWide(usize),
    /// Memory ran out.
    Memory,
}

impl From<AllocError> for LexError {
    ghost use Rattle.std.specs.Prelude.{◌≡◌};
    ghost use Rattle.nb_lexer.specs.declared.fault.LexError.TheVariants.{Memory};

    ghost from_gives = { λ _ e. e ≡ Memory };

    fn from(_refused: AllocError) -> LexError {
        LexError::Memory
    }
}

impl<T: Drop> From<AllocFailed<T>> for LexError {
    ghost use Rattle.std.specs.Prelude.{◌≡◌};
    ghost use Rattle.nb_lexer.specs.declared.fault.LexError.TheVariants.{Memory};

    ghost from_gives = { λ _ e. e ≡ Memory };

    fn from(_refused: AllocFailed<T>) -> LexError {
        LexError::Memory
    }
}
