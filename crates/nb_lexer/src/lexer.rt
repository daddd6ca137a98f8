ghost use Rattle.std.specs.Prelude.{◌≡◌, ◌+◌, ◌<◌, ◌^◌, List, length, false, Ok, Err, IfOk, IfErr, IsUtf8, All};
ghost use Rattle.nb_lexer.specs.declared.token.Token.{Token};
ghost use Rattle.nb_lexer.specs.declared.fault.LexError.{LexError};
ghost use Rattle.nb_lexer.specs.Characters.{is_gap, begins};
ghost use Rattle.nb_lexer.specs.Words.{sign, kind_of};
ghost use Rattle.nb_lexer.specs.Scan.{Gives, Stands, FaultsAt, kind_found, front, name_at, name_word, sign_or_stray};
ghost use Rattle.nb_lexer.specs.Lexes.{AreTokens, IsSpan, InOrder};
ghost use Rattle.nb_lexer.specs.Faults.{Refuses, IsFault, UnlessMemory};

use crate::characters::{
    begins_with_digit, begins_with_letter, begins_with_quote, gap_len, name_len,
};
use crate::fault::LexError;
use crate::fixed::{keyword, sign};
use crate::number::number_at;
use crate::quoted::quoted_at;
use crate::token::{Token, TokenKind, Tokens};
use nb_value::Items;
use std::alloc::Global;

/// The tokens of a text, from left to right, or its first fault.
///
/// Each token's text is the part of the source from its `start` up to below its `end`, where it may be cut.
/// It takes time and memory linear in the text's bytes, and reads nothing behind a fault.
pub fn tokens(alloc: Global, text: &str) -> Result<Tokens, LexError>
    ensures found { IfOk result (AreTokens text.now) }
    ensures spans { IfOk result (All (IsSpan text.now)) }
    ensures order { IfOk result (InOrder 0) }
    ensures fault { IfErr result (Refuses text.now) }
    // No other tokens are those of the text.
    ensures only { (ts : List Token) → AreTokens text.now ts → UnlessMemory result (result ≡ Ok ts) }
    // Its first fault, where it has one, is answered.
    ensures only_fault { (e : LexError) → IsFault text.now e → UnlessMemory result (result ≡ Err e) }
{
    scan(alloc, text)
}

/// The tokens of a text, or its first fault.
fn scan(alloc: Global, text: &str) -> Result<Tokens, LexError>
    ensures found { IfOk result (AreTokens text.now) }
    ensures fault { IfErr result (Refuses text.now) }
{
    let bytes = text.as_bytes();
    let mut found = Items::new(alloc);
    let mut at = gap_len(bytes);
    'tokens: while at < bytes.len() {
        let token = next_token(alloc, at, bytes.split_at(at).1)?;
        let end = token.end;
        found.push(token)?;
        at = end + gap_len(bytes.split_at(end).1);
    }
    Ok(found)
}

/// The token at the front of what stands from the place `at` on, which isn't a gap.
fn next_token(alloc: Global, at: usize, text: &[u8]) -> Result<Token, LexError>
    requires utf8 { IsUtf8 text.now }
    requires room { at + length text.now < 2 ^ 63 }
    requires some { 0 < length text.now }
    requires clear { begins is_gap text.now ≡ false }
    ensures found { IfOk result (Stands at text.now) }
    ensures fault { IfErr result (FaultsAt at text.now) }
{
    let (kind, end) = token_at(alloc, at, text)?;
    Ok(Token {
        kind,
        start: at,
        end,
    })
}

/// What kind of token stands at the front of what stands from the place `at` on, and the place behind it.
#[tactic(auto, unfolding(crate::specs::Scan::front))]
fn token_at(alloc: Global, at: usize, text: &[u8]) -> Result<(TokenKind, usize), LexError>
    requires utf8 { IsUtf8 text.now }
    requires room { at + length text.now < 2 ^ 63 }
    ensures { Gives result (kind_found (front at text.now)) }
{
    if begins_with_letter(text) {
        Ok(name_at(at, text))
    } else if begins_with_digit(text) {
        number_at(at, text)
    } else if begins_with_quote(text) {
        quoted_at(alloc, at, text)
    } else {
        sign_at(at, text)
    }
}

/// The name or the keyword at the front, and the place behind it.
fn name_at(at: usize, text: &[u8]) -> (TokenKind, usize)
    requires { at + length text.now < 2 ^ 63 }
    ensures { Ok result ≡ kind_found (Ok (name_at at text.now)) }
{
    let len = name_len(text);
    let (name, _) = text.split_at(len);
    (name_kind(name), at + len)
}

fn name_kind(name: &[u8]) -> TokenKind
    ensures { result ≡ kind_of (name_word name.now) }
{
    match keyword(name) {
        Some(_) => TokenKind::Keyword,
        None => TokenKind::Name,
    }
}

/// The sign at the front, and the place behind it.
fn sign_at(at: usize, text: &[u8]) -> Result<(TokenKind, usize), LexError>
    requires { at + length text.now < 2 ^ 63 }
    ensures { Gives result (kind_found (sign_or_stray at (sign text.now))) }
{
    match sign(text) {
        Some((_, len)) => Ok((TokenKind::Sign, at + len)),
        None => Err(LexError::BadCharacter(at)),
    }
}
