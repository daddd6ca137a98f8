ghost use Rattle.std.specs.Prelude.{◌≡◌, ◌^◌, ◌<◌, length, chars};
ghost use Rattle.nb_builtins.specs.Calls.{Answers};
ghost use Rattle.nb_builtins.specs.Lengths.{len};

use crate::errors::wrong_kind;
use crate::fail::ApplyFail;
use nb_value::{Function, Text, Value};
use std::alloc::Global;

/// The number of characters of a text, items of a list or fields of a record, in time linear in a text's bytes.
pub fn len(alloc: Global, value: &Value) -> Result<Value, ApplyFail>
    ensures { Answers result (len value.now) }
{
    match value {
        Value::Text(text) => Ok(Value::Int(char_count(text) as i64)),
        Value::List(items) => Ok(Value::Int(items.len() as i64)),
        Value::Rec(fields) => Ok(Value::Int(fields.len() as i64)),
        _ => Err(wrong_kind(alloc, Function::Len)),
    }
}

fn char_count(text: &Text) -> usize
    ensures value { result ≡ length (chars text.now) }
    ensures small { result < 2 ^ 63 }
{
    text.as_str().chars().count()
}
