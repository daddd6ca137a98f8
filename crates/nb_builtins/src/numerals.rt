ghost use Rattle.std.specs.Prelude.{◌≡◌};
ghost use Rattle.std.specs.Char.{is_ascii_digit};
ghost use Rattle.std.specs.List.{list_all};
ghost use Rattle.nb_builtins.specs.Calls.{Answers};
ghost use Rattle.nb_builtins.specs.Numerals.{is_numeral, is_positive_numeral, spelled, int_within, int_of_text};

use crate::errors::{out_of_range, wrong_kind};
use crate::fail::ApplyFail;
use nb_value::{Function, Value};
use std::alloc::Global;

/// The number that a text spells as JSON would, with no other characters, in time linear in the text.
pub fn int(alloc: Global, value: &Value) -> Result<Value, ApplyFail>
    ensures { Answers result (int_of_text value.now) }
{
    let Value::Text(text) = value else {
        return Err(wrong_kind(alloc, Function::Int));
    };
    match spelled(text.as_str()) {
        Some(n) => Ok(Value::Int(n)),
        None => Err(out_of_range(alloc, Function::Int)),
    }
}

fn spelled(text: &str) -> Option<i64>
    ensures { result ≡ int_within (spelled text.now) }
{
    if is_numeral(text.as_bytes()) {
        text.parse::<i64>().ok()
    } else {
        None
    }
}

fn is_numeral(text: &[u8]) -> bool
    ensures { result ≡ is_numeral text.now }
{
    match text {
        [b'0'] => true,
        [b'-', digits @ ..] => is_positive_numeral(digits),
        _ => is_positive_numeral(text),
    }
}

fn is_positive_numeral(text: &[u8]) -> bool
    ensures { result ≡ is_positive_numeral text.now }
{
    match text.split_first() {
        Some((first, others)) => (b'1'..=b'9').contains(first) && are_digits(others),
        None => false,
    }
}

fn are_digits(text: &[u8]) -> bool
    ensures { result ≡ list_all is_ascii_digit text.now }
{
    text.iter().all(|digit| digit.is_ascii_digit())
}
