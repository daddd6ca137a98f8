ghost use Rattle.std.specs.Prelude.{◌≡◌, ◌≤◌, ◌<◌, Some, Ok, Err, IfOk, IfErr, All, length};
ghost use Rattle.nb_lexer.specs.Lexes.{IsSpan};
ghost use Rattle.nb_syntax.specs.declared.tree.Cell.{Cell};
ghost use Rattle.nb_parser.specs.declared.error.ParseError.{ParseError};
ghost use Rattle.nb_parser.specs.Text.{cell_of};
ghost use Rattle.nb_parser.specs.Parse.{Parses, Refuses, IsRefused, UnlessMemory, HasNone, IsLeft, IsAmong, Places};

use crate::cell::cell_of_words;
use crate::error::ParseError;
use nb_grammar::{Fault, Stop};
use nb_lexer::{Token, tokens, words};
use nb_syntax::Cell;
use nb_value::Text;
use std::alloc::{AllocError, Global};

/// The cell that the text spells, with at most 64 brackets open at any place; or why it spells none.
///
/// A refusal of the lexer comes before all others. It takes time and memory linear in the text's bytes.
pub fn parse_cell(alloc: Global, text: &str) -> Result<Cell, ParseError>
    ensures cell { IfOk result (λ c. cell_of text.now ≡ Some c) }
    ensures none { IfErr result (HasNone text.now) }
    ensures parses { IfOk result (Parses text.now) }
    ensures refused { IfErr result (Refuses text.now) }
    // No other cell is spelled by the text.
    ensures only { (c : Cell) → Parses text.now c → UnlessMemory result (result ≡ Ok c) }
    // No other refusal fits the text.
    ensures only_refused { (e : ParseError) → IsRefused text.now e → UnlessMemory result (result ≡ Err e) }
{
    read(alloc, text)
}

/// The cell that the text spells, or why it spells none.
fn read(alloc: Global, text: &str) -> Result<Cell, ParseError>
    ensures parses { IfOk result (Parses text.now) }
    ensures refused { IfErr result (Refuses text.now) }
{
    let tokens = tokens(alloc, text)?;
    let words = words(alloc, text, &tokens)?;
    match cell_of_words(alloc, words.as_slice()) {
        Ok(cell) => Ok(cell),
        Err(Stop::Memory) => Err(ParseError::Memory),
        Err(Stop::Fault(fault)) => Err(placed(alloc, text, tokens.as_slice(), fault)?),
    }
}

/// The fault of the tokens' words, with its place in the text.
fn placed(
    alloc: Global,
    text: &str,
    tokens: &[Token],
    fault: Fault,
) -> Result<ParseError, AllocError>
    requires spans { All (IsSpan text.now) tokens.now }
    requires among { IsAmong (length tokens.now) fault }
    ensures { IfOk result (Places text.now tokens.now fault) }
{
    match fault {
        Fault::Unexpected(left) => {
            let token = token_with(tokens, left);
            let found = Text::from_str(alloc, &text[token.start..token.end])?;
            Ok(ParseError::Unexpected(token.start, found))
        }
        Fault::Ended => Ok(ParseError::Ended(text.len())),
        Fault::TooDeep(left) => Ok(ParseError::TooDeep(token_with(tokens, left).start)),
    }
}

/// The token with which so many are left, that one included.
fn token_with(tokens: &[Token], left: usize) -> &Token
    requires some { 0 < left }
    requires within { left ≤ length tokens.now }
    ensures { IsLeft tokens.now left result.now }
{
    &tokens[tokens.len() - left]
}
