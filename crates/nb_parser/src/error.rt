use nb_lexer::LexError;
use nb_value::Text;
use std::alloc::{AllocError, AllocFailed};

/// Why a text is no cell. Places are in bytes, from 0.
#[derive(Debug, Drop)]
pub enum ParseError {
    /// The text has no tokens.
    Lex(LexError),
    /// The place and the text of the first token with which no cell goes on.
    Unexpected(usize, Text),
    /// The length of a text that ends where every cell goes on.
    Ended(usize),
    /// The place of the first bracket that opens where 64 are open, if a cell goes on with it.
    TooDeep(usize),
    /// Memory ran out.
    Memory,
}

impl From<LexError> for ParseError {
    ghost use Rattle.std.specs.Prelude.{◌≡◌};
    ghost use Rattle.nb_parser.specs.Parse.{from_lexer};

    ghost from_gives = { λ refused e. e ≡ from_lexer refused };

    fn from(refused: LexError) -> ParseError {
        match refused {
            LexError::Memory => ParseError::Memory,
            _ => ParseError::Lex(refused),
        }
    }
}

impl From<AllocError> for ParseError {
    ghost use Rattle.std.specs.Prelude.{◌≡◌};
    ghost use Rattle.nb_parser.specs.declared.error.ParseError.TheVariants.{Memory};

    ghost from_gives = { λ _ e. e ≡ Memory };

    fn from(_refused: AllocError) -> ParseError {
        ParseError::Memory
    }
}
