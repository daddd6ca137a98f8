ghost use Rattle.std.specs.Prelude.{◌≡◌, ◌+◌, ◌≤◌, ◌<◌, ◌^◌, length, true, pos, take, nat_lt, Some, None, if◌then◌else◌};
ghost use Rattle.std.specs.List.{list_all};
ghost use Rattle.std.specs.Str.Parse.{digits_value};
ghost use Rattle.nb_lexer.specs.Characters.{is_digit, begins};
ghost use Rattle.nb_lexer.specs.Spelling.{too_wide};
ghost use Rattle.nb_lexer.specs.Scan.{Gives, kind_found, number_at, numeral_len};

use crate::characters::{begins_in_name, digits_len};
use crate::fault::LexError;
use crate::token::TokenKind;
use std::str;

/// The number at the front, which begins with a digit, and the place behind it.
pub fn number_at(at: usize, text: &[u8]) -> Result<(TokenKind, usize), LexError>
    requires digit { begins is_digit text.now ≡ true }
    requires room { at + length text.now < 2 ^ 63 }
    ensures { Gives result (kind_found (number_at at text.now)) }
{
    let len = numeral_len(text);
    let (digits, rest) = text.split_at(len);
    let Some(number) = value_of(digits) else {
        return Err(LexError::TooWide(at));
    };
    let end = at + len;
    if begins_in_name(rest) {
        return Err(LexError::BadCharacter(end));
    }
    Ok((TokenKind::Number(number), end))
}

/// How many digits the number at the front has. Behind a 0 there is none.
fn numeral_len(text: &[u8]) -> usize
    requires { begins is_digit text.now ≡ true }
    ensures value { result ≡ numeral_len text.now }
    ensures some { 0 < result }
    ensures within { result ≤ length text.now }
{
    if text.first() == Some(&b'0') {
        1
    } else {
        digits_len(text)
    }
}

/// The number that digits write, if it isn't too wide.
fn value_of(digits: &[u8]) -> Option<i64>
    requires all { list_all is_digit digits.now ≡ true }
    requires some { 0 < length digits.now }
    ensures { result ≡ (if nat_lt (digits_value 10 digits.now) too_wide then Some (pos (digits_value 10 digits.now))
        else None) }
{
    match str::from_utf8(digits) {
        Ok(text) => text.parse::<i64>().ok(),
        Err(_) => None,
    }
}
