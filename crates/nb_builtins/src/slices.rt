ghost use Rattle.std.specs.Prelude.{◌≡◌, IfOk, chars, reverse, encode_utf8_all};
ghost use Rattle.std.specs.Option.{option_copied};
ghost use Rattle.nb_builtins.specs.Calls.{Answers};
ghost use Rattle.nb_builtins.specs.Slices.{part_of, slice_of, reverse_of};

use crate::errors::{out_of_range, wrong_kind};
use crate::fail::ApplyFail;
use nb_value::{Function, Items, Text, Value};
use std::alloc::{AllocError, Global};

/// The characters of a text, or the items of a list, from the first place up to below the second, in time linear in
/// the size of the whole.
pub fn slice(
    alloc: Global,
    value: &Value,
    first: &Value,
    second: &Value,
) -> Result<Value, ApplyFail>
    ensures { Answers result (slice_of value.now first.now second.now) }
{
    match (value, first, second) {
        (Value::Text(text), Value::Int(first), Value::Int(second)) => {
            let characters = characters(alloc, text)?;
            match part(&characters, *first, *second) {
                Some(part) => Ok(Value::Text(text_of_chars(alloc, part)?)),
                None => Err(out_of_range(alloc, Function::Slice)),
            }
        }
        (Value::List(items), Value::Int(first), Value::Int(second)) => {
            match part(items.as_slice(), *first, *second) {
                Some(part) => Ok(Value::List(Items::from_vec(copies(alloc, part)?))),
                None => Err(out_of_range(alloc, Function::Slice)),
            }
        }
        _ => Err(wrong_kind(alloc, Function::Slice)),
    }
}

fn part<T>(items: &[T], first: i64, second: i64) -> Option<&[T]>
    ensures { option_copied result ≡ part_of items.now first second }
{
    let first = usize::try_from(first).ok()?;
    let second = usize::try_from(second).ok()?;
    items.get(first..second)
}

fn characters(alloc: Global, text: &Text) -> Result<Vec<char>, AllocError>
    ensures { IfOk result (λ v. v.items ≡ chars text.now) }
{
    text.as_str().chars().collect(alloc)
}

fn text_of_chars(alloc: Global, characters: &[char]) -> Result<Text, AllocError>
    ensures { IfOk result (λ text. text ≡ encode_utf8_all characters.now) }
{
    let mut string = String::new(alloc);
    for c in characters {
        string.push(*c)?;
    }
    Ok(Text::from_string(string))
}

fn copies(alloc: Global, values: &[Value]) -> Result<Vec<Value>, AllocError>
    ensures { IfOk result (λ v. v.items ≡ values.now) }
{
    let mut copies = Vec::new(alloc);
    for value in values {
        copies.push(value.copy(alloc)?)?;
    }
    Ok(copies)
}

/// A text's characters or a list's items, backwards, in time linear in the size.
pub fn reverse(alloc: Global, value: &Value) -> Result<Value, ApplyFail>
    ensures { Answers result (reverse_of value.now) }
{
    match value {
        Value::Text(text) => Ok(Value::Text(reversed_text(alloc, text)?)),
        Value::List(items) => Ok(Value::List(reversed_items(alloc, items.as_slice())?)),
        _ => Err(wrong_kind(alloc, Function::Reverse)),
    }
}

fn reversed_text(alloc: Global, text: &Text) -> Result<Text, AllocError>
    ensures { IfOk result (λ reversed. reversed ≡ encode_utf8_all (reverse (chars text.now))) }
{
    let mut characters = characters(alloc, text)?;
    characters.reverse();
    text_of_chars(alloc, &characters)
}

fn reversed_items(alloc: Global, values: &[Value]) -> Result<Items<Value>, AllocError>
    ensures { IfOk result (λ items. items ≡ reverse values.now) }
{
    let mut copies = copies(alloc, values)?;
    copies.reverse();
    Ok(Items::from_vec(copies))
}
