ghost use Rattle.std.specs.Prelude.{◌≡◌, IfOk};
ghost use Rattle.nb_builtins.specs.Calls.{Answers};
ghost use Rattle.nb_builtins.specs.Texts.{text_of, as_text};

use crate::fail::ApplyFail;
use nb_value::{Text, Value};
use std::alloc::{AllocError, Global};

/// A text itself, or another value's JSON, in time and memory linear in the value's size.
pub fn text(alloc: Global, value: &Value) -> Result<Value, ApplyFail>
    ensures { Answers result (as_text value.now) }
{
    Ok(Value::Text(text_of(alloc, value)?))
}

fn text_of(alloc: Global, value: &Value) -> Result<Text, AllocError>
    ensures { IfOk result (λ text. text ≡ text_of value.now) }
{
    match value {
        Value::Text(text) => text.copy(alloc),
        _ => value.to_json(alloc),
    }
}
