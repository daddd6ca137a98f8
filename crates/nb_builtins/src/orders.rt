ghost use Rattle.std.specs.Prelude.{◌≡◌, IfOk};
ghost use Rattle.nb_builtins.specs.Calls.{Answers};
ghost use Rattle.nb_builtins.specs.Orders.{Sorts, sorted, sort_of};

use crate::errors::wrong_kind;
use crate::fail::ApplyFail;
use nb_value::{Function, Items, Tree, Value};
use std::alloc::{AllocError, Global};

/// A list in the order of its values, by a stable sort of `n * log n` comparisons of its items.
pub fn sort(alloc: Global, value: &Value) -> Result<Value, ApplyFail>
    ensures { Answers result (sort_of value.now) }
{
    match value {
        Value::List(items) => Ok(Value::List(sorted(alloc, items)?)),
        _ => Err(wrong_kind(alloc, Function::Sort)),
    }
}

fn sorted(alloc: Global, items: &Items<Value>) -> Result<Items<Value>, AllocError>
    ensures sorts { IfOk result (Sorts items.now) }
    ensures value { IfOk result (λ after. after ≡ sorted items.now) }
{
    let mut values = items.copy(alloc)?;
    values.sort()?;
    Ok(values)
}
