//! Steps into values.

ghost use Rattle.std.specs.Prelude.{◌≡◌, ◌≢◌};
ghost use Rattle.std.specs.Option.{option_copied};
ghost use Rattle.nb_eval.specs.Run.{Gives};
ghost use Rattle.nb_eval.specs.Operate.{found, field_of, item_at, item_or, part_of};

use crate::steps::{failure, failure_with};
use crate::stop::Stop;
use nb_value::{ErrorKind, Items, Text, Value};
use std::alloc::Global;

// A copy of the value of a field, or the error that there is none.
fn found(alloc: Global, name: &Text, value: Option<&Value>) -> Result<Value, Stop>
    ensures { Gives result (found name.now (option_copied value.entry)) }
{
    match value {
        Some(value) => Ok(value.copy(alloc)?),
        None => Err(failure_with(alloc, ErrorKind::NoField, name)),
    }
}

/// A copy of a field of a record, in time linear in it and in the fields.
pub fn field_of(alloc: Global, value: &Value, name: &Text) -> Result<Value, Stop>
    ensures { Gives result (field_of name.now value.now) }
{
    match value {
        Value::Rec(fields) => found(alloc, name, fields.get(name.as_str())),
        _ => Err(failure(alloc, ErrorKind::WrongKind, ".")),
    }
}

fn item_at(items: &Items<Value>, index: i64) -> Option<&Value>
    ensures { option_copied result ≡ item_at index items.now }
{
    if index < 0 {
        return None;
    }
    items.get(index as usize)
}

fn item_or(alloc: Global, item: Option<&Value>) -> Result<Value, Stop>
    ensures { Gives result (item_or (option_copied item.entry)) }
{
    match item {
        Some(item) => Ok(item.copy(alloc)?),
        None => Err(failure(alloc, ErrorKind::OutOfRange, "[")),
    }
}

/// A copy of an item of a list or of a field of a record, in time linear in it and in the fields.
pub fn part_of(alloc: Global, value: &Value, index: &Value) -> Result<Value, Stop>
    ensures { Gives result (part_of value.now index.now) }
{
    match (value, index) {
        (Value::List(items), Value::Int(index)) => item_or(alloc, item_at(items, *index)),
        (Value::Rec(fields), Value::Text(name)) => { found(alloc, name, fields.get(name.as_str())) }
        _ => Err(failure(alloc, ErrorKind::WrongKind, "[")),
    }
}
