ghost use Rattle.std.specs.Prelude.{◌≡◌, pos};
ghost use Rattle.nb_builtins.specs.Calls.{Answers};
ghost use Rattle.nb_builtins.specs.Sums.{sum_from, sum_of, abs_of};

use crate::errors::{overflow, wrong_kind};
use crate::fail::ApplyFail;
use nb_value::{Function, Value};
use std::alloc::Global;

/// The sum of a list of numbers, from the left, in time linear in their number.
pub fn sum(alloc: Global, value: &Value) -> Result<Value, ApplyFail>
    ensures { Answers result (sum_of value.now) }
{
    match value {
        Value::List(items) => Ok(Value::Int(total(alloc, items.as_slice())?)),
        _ => Err(wrong_kind(alloc, Function::Sum)),
    }
}

fn total(alloc: Global, items: &[Value]) -> Result<i64, ApplyFail>
    ensures { Answers result (sum_from (pos 0) items.now) }
{
    let mut total = 0i64;
    for item in items {
        let Value::Int(n) = item else {
            return Err(wrong_kind(alloc, Function::Sum));
        };
        let Some(next) = total.checked_add(*n) else {
            return Err(overflow(alloc, Function::Sum));
        };
        total = next;
    }
    Ok(total)
}

/// The amount of a number, which overflows for the least one alone.
pub fn abs(alloc: Global, value: &Value) -> Result<Value, ApplyFail>
    ensures { Answers result (abs_of value.now) }
{
    let Value::Int(n) = value else {
        return Err(wrong_kind(alloc, Function::Abs));
    };
    match n.checked_abs() {
        Some(amount) => Ok(Value::Int(amount)),
        None => Err(overflow(alloc, Function::Abs)),
    }
}
