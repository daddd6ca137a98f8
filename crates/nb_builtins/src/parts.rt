ghost use Rattle.std.specs.Prelude.{◌≡◌, ◌<◌, length, map, IfOk};
ghost use Rattle.nb_value.specs.declared.value.Value.TheVariants as variant;
ghost use Rattle.nb_builtins.specs.Calls.{Answers};
ghost use Rattle.nb_builtins.specs.Parts.{IsSplit, parts, split_of};

use crate::errors::{out_of_range, wrong_kind};
use crate::fail::ApplyFail;
use nb_value::{Function, Items, Text, Value};
use std::alloc::{AllocError, Global};

/// The parts of a text between the occurrences of a separator, which is searched from the left, in time linear in
/// the text.
pub fn split(alloc: Global, value: &Value, separator: &Value) -> Result<Value, ApplyFail>
    ensures { Answers result (split_of value.now separator.now) }
{
    let (Value::Text(text), Value::Text(separator)) = (value, separator) else {
        return Err(wrong_kind(alloc, Function::Split));
    };
    if separator.is_empty() {
        return Err(out_of_range(alloc, Function::Split));
    }
    let parts = parts(alloc, text.as_str(), separator.as_str())?;
    Ok(Value::List(parts))
}

#[tactic(auto, using(crate::proofs::PartLemmas::splits))]
fn parts(alloc: Global, text: &str, separator: &str) -> Result<Items<Value>, AllocError>
    requires { 0 < length separator.now }
    ensures value { IfOk result (λ items. items ≡ map variant.Text (parts separator.now text.now)) }
    ensures split { IsSplit separator.now text.now (parts separator.now text.now) }
{
    let mut items = Items::new(alloc);
    for part in text.split(separator) {
        items.push(Value::Text(Text::from_str(alloc, part)?))?;
    }
    Ok(items)
}
