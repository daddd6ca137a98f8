ghost use Rattle.std.specs.Prelude.{◌≡◌, map, IfOk};
ghost use Rattle.nb_builtins.specs.Calls.{Answers};
ghost use Rattle.nb_builtins.specs.Records.{name_of, value_in, keys_of, values_of, has_of};

use crate::errors::wrong_kind;
use crate::fail::ApplyFail;
use nb_value::{Field, Function, Items, Value};
use std::alloc::{AllocError, Global};

/// The names of a record in byte order, in time linear in their bytes.
pub fn keys(alloc: Global, value: &Value) -> Result<Value, ApplyFail>
    ensures { Answers result (keys_of value.now) }
{
    match value {
        Value::Rec(fields) => Ok(Value::List(names(alloc, fields.as_slice())?)),
        _ => Err(wrong_kind(alloc, Function::Keys)),
    }
}

fn names(alloc: Global, fields: &[Field<Value>]) -> Result<Items<Value>, AllocError>
    ensures { IfOk result (λ items. items ≡ map name_of fields.now) }
{
    let mut items = Items::new(alloc);
    for field in fields {
        items.push(Value::Text(field.name.copy(alloc)?))?;
    }
    Ok(items)
}

/// The values of a record in the order of their names, in time linear in their size.
pub fn values(alloc: Global, value: &Value) -> Result<Value, ApplyFail>
    ensures { Answers result (values_of value.now) }
{
    match value {
        Value::Rec(fields) => Ok(Value::List(copies(alloc, fields.as_slice())?)),
        _ => Err(wrong_kind(alloc, Function::Values)),
    }
}

fn copies(alloc: Global, fields: &[Field<Value>]) -> Result<Items<Value>, AllocError>
    ensures { IfOk result (λ items. items ≡ map value_in fields.now) }
{
    let mut items = Items::new(alloc);
    for field in fields {
        items.push(field.value.copy(alloc)?)?;
    }
    Ok(items)
}

/// Whether a record has a field of the name, in time linear in the fields.
pub fn has(alloc: Global, value: &Value, name: &Value) -> Result<Value, ApplyFail>
    ensures { Answers result (has_of value.now name.now) }
{
    match (value, name) {
        (Value::Rec(fields), Value::Text(name)) => {
            Ok(Value::Bool(fields.get(name.as_str()).is_some()))
        }
        _ => Err(wrong_kind(alloc, Function::Has)),
    }
}
