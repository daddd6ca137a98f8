ghost use Rattle.std.specs.Prelude.{◌≡◌, ◌+◌, ◌≤◌, ◌<◌, ◌^◌, length, true, drop, false, Some, IfOk, IsUtf8, IfSome};
ghost use Rattle.nb_lexer.specs.Characters.{is_quote, begins};
ghost use Rattle.nb_lexer.specs.Scan.{Gives, GivesBy, kind_found, quoted_word, inside, part_at, escape_at, unescaped};

use crate::fault::LexError;
use crate::token::TokenKind;
use nb_value::Text;
use std::alloc::Global;

/// The byte that a character stands for behind a backslash, if the two are an escape.
fn unescaped(b: u8) -> Option<u8>
    ensures { result ≡ unescaped b }
{
    match b {
        b'"' => Some(b'"'),
        b'\\' => Some(b'\\'),
        b'n' => Some(b'\n'),
        b'r' => Some(b'\r'),
        b't' => Some(b'\t'),
        _ => None,
    }
}

/// What the part of a quoted text behind a backslash stands for, and the place behind it.
/// The backslash stands at the place `at`, the opening quote at `quote`.
fn escape_at(quote: usize, at: usize, text: &[u8]) -> Result<Option<(u8, usize)>, LexError>
    requires { at + 1 + length text.now < 2 ^ 63 }
    ensures { Gives result (escape_at quote at text.now) }
{
    let Some(b) = text.first() else {
        return Err(LexError::OpenText(quote));
    };
    match unescaped(*b) {
        Some(b) => Ok(Some((b, at + 2))),
        None => Err(LexError::BadEscape(at)),
    }
}

/// The byte that the part of a quoted text at the place `at` stands for, and the place behind it; or `None` at the
/// closing quote.
fn part_at(quote: usize, at: usize, text: &[u8]) -> Result<Option<(u8, usize)>, LexError>
    requires { at + length text.now < 2 ^ 63 }
    ensures value { Gives result (part_at quote at text.now) }
    ensures further { IfOk result (λ o. IfSome o (λ x. at < x.1)) }
    ensures within { IfOk result (λ o. IfSome o (λ x. x.1 ≤ at + length text.now)) }
{
    match text {
        [] => Err(LexError::OpenText(quote)),
        [b'"', ..] => Ok(None),
        [b'\\', rest @ ..] => escape_at(quote, at, rest),
        [0..=31, ..] => Err(LexError::BadCharacter(at)),
        [b, ..] => Ok(Some((*b, at + 1))),
    }
}

/// The bytes that stand behind an opening quote at the place `quote`, without escapes, and the place behind the closing
/// quote.
fn value_at(alloc: Global, quote: usize, text: &[u8]) -> Result<(Vec<u8>, usize), LexError>
    requires { quote + 1 + length text.now < 2 ^ 63 }
    ensures { GivesBy (λ x. (x.0.items, x.1)) result (inside quote false (quote + 1) text.now) }
{
    let mut value = Vec::new(alloc);
    let mut at = quote + 1;
    let mut rest = text;
    'parts: while let Some((byte, next)) = part_at(quote, at, rest)? {
        value.push(byte)?;
        rest = rest.split_at(next - at).1;
        at = next;
    }
    Ok((value, at + 1))
}

/// The quoted text at the front, which begins with its quote, and the place behind it.
pub fn quoted_at(alloc: Global, at: usize, text: &[u8]) -> Result<(TokenKind, usize), LexError>
    requires quote { begins is_quote text.now ≡ true }
    requires utf8 { IsUtf8 text.now }
    requires room { at + length text.now < 2 ^ 63 }
    ensures { Gives result (kind_found (quoted_word (inside at false (at + 1) (drop 1 text.now)))) }
{
    let (value, end) = value_at(alloc, at, text.split_at(1).1)?;
    Ok((TokenKind::Quoted(text_of(value)), end))
}

fn text_of(bytes: Vec<u8>) -> Text
    requires { IsUtf8 bytes.items }
    ensures { result ≡ bytes.items }
{
    match String::from_utf8(bytes) {
        Ok(string) => Text::from_string(string),
        Err(_) => unreachable!(),
    }
}
