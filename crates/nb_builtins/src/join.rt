ghost use Rattle.std.specs.Prelude.{◌≡◌, ◌-◌, ◌^◌, min, length, map, IfOk};
ghost use Rattle.std.specs.Result.{result_map_both};
ghost use Rattle.nb_value.specs.declared.value.Value.TheVariants as variant;
ghost use Rattle.nb_builtins.specs.Calls.{Answers, and_then};
ghost use Rattle.nb_builtins.specs.Parts.{joined, texts_of, join_of};
ghost use Rattle.nb_builtins.specs.Apply.{afforded};

use crate::errors::{out_of_fuel, wrong_kind};
use crate::fail::ApplyFail;
use crate::fuel::is_paid;
use nb_value::{Function, Text, Value};
use std::alloc::{AllocError, Global};

/// The texts of a list with the separator between each two, in time linear in the text that is made. A text that the
/// fuel does not pay for is not made.
pub fn join(alloc: Global, value: &Value, separator: &Value, fuel: u64) -> Result<Value, ApplyFail>
    ensures { Answers result (and_then (join_of value.now separator.now) (afforded fuel)) }
{
    match (value, separator) {
        (Value::List(items), Value::Text(separator)) => {
            let texts = texts(alloc, items.as_slice())?;
            paid_join(alloc, &texts, separator, fuel)
        }
        _ => Err(wrong_kind(alloc, Function::Join)),
    }
}

fn texts(alloc: Global, items: &[Value]) -> Result<Vec<&Text>, ApplyFail>
    ensures { Answers (result_map_both (λ v. map (λ t. t.now) v.items) (λ e. e) result) (texts_of items.now) }
{
    let mut texts = Vec::new(alloc);
    for item in items {
        let Value::Text(text) = item else {
            return Err(wrong_kind(alloc, Function::Join));
        };
        texts.push(text).map_err(AllocError::from)?;
    }
    Ok(texts)
}

#[tactic(auto, using(crate::proofs::FuelLemmas::paid_join))]
fn paid_join(
    alloc: Global,
    texts: &[&Text],
    separator: &Text,
    fuel: u64,
) -> Result<Value, ApplyFail>
    ensures { Answers result (afforded fuel (variant.Text (joined separator.now (map (λ t. t.now) texts.now)))) }
{
    if is_paid(joined_len(texts, separator), fuel) {
        Ok(Value::Text(joined(alloc, texts, separator)?))
    } else {
        Err(out_of_fuel(alloc))
    }
}

// The number of bytes, or the greatest `u64` if that is less.
fn joined_len(texts: &[&Text], separator: &Text) -> u64
    ensures { result ≡ min (length (joined separator.now (map (λ t. t.now) texts.now))) (2 ^ 64 - 1) }
{
    let Some((first, others)) = texts.split_first() else {
        return 0;
    };
    let mut total = first.len() as u64;
    for text in others {
        let more = (separator.len() as u64).saturating_add(text.len() as u64);
        total = total.saturating_add(more);
    }
    total
}

fn joined(alloc: Global, texts: &[&Text], separator: &Text) -> Result<Text, AllocError>
    ensures { IfOk result (λ text. text ≡ joined separator.now (map (λ t. t.now) texts.now)) }
{
    let mut string = String::new(alloc);
    let Some((first, others)) = texts.split_first() else {
        return Ok(Text::from_string(string));
    };
    string.push_str(first.as_str())?;
    for text in others {
        string.push_str(separator.as_str())?;
        string.push_str(text.as_str())?;
    }
    Ok(Text::from_string(string))
}
