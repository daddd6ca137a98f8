ghost use Rattle.std.specs.Prelude.{IfOk, slice_range};
ghost use Rattle.nb_lexer.specs.Spelling.{Spells};
ghost use Rattle.nb_lexer.specs.Lexes.{AreTokens, IsSpan, Reads};

use crate::fixed::{keyword, sign};
use crate::token::{Token, TokenKind, Tokens};
use crate::word::Word;
use nb_value::{Items, Text};
use std::alloc::{AllocError, Global};

/// The words of a text's tokens: as many, in the same order.
///
/// It takes time and memory linear in the text's bytes, and fails only without memory.
pub fn words(alloc: Global, text: &str, tokens: &Tokens) -> Result<Items<Word>, AllocError>
    requires { AreTokens text.now tokens.now }
    ensures { IfOk result (Reads text.now tokens.now) }
{
    let mut found = Items::new(alloc);
    for token in tokens.as_slice() {
        found.push(word_of(alloc, text, token)?)?;
    }
    Ok(found)
}

/// The word that the token's part of the text spells.
fn word_of(alloc: Global, text: &str, token: &Token) -> Result<Word, AllocError>
    requires { IsSpan text.now token.now }
    ensures { IfOk result (λ w. Spells w (slice_range text.now token.now.start token.now.end)) }
{
    let spelling = &text[token.start..token.end];
    match &token.kind {
        TokenKind::Name => Ok(Word::Name(Text::from_str(alloc, spelling)?)),
        TokenKind::Keyword => Ok(keyword(spelling.as_bytes()).unwrap()),
        TokenKind::Number(number) => Ok(Word::Number(*number)),
        TokenKind::Quoted(value) => Ok(Word::Quoted(value.copy(alloc)?)),
        TokenKind::Sign => Ok(sign(spelling.as_bytes()).unwrap().0),
    }
}
