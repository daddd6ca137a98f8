ghost use Rattle.std.specs.Prelude.{◌≡◌, IfOk};
ghost use Rattle.nb_builtins.specs.Calls.{Answers, and_then};
ghost use Rattle.nb_builtins.specs.Ranges.{count_between, ints_from, range_of};
ghost use Rattle.nb_builtins.specs.Apply.{afforded};

use crate::errors::{out_of_fuel, wrong_kind};
use crate::fail::ApplyFail;
use crate::fuel::is_paid;
use nb_value::{Function, Items, Value};
use std::alloc::{AllocError, Global};

/// The numbers from the first up to below the end, in time linear in their number. A list that the fuel does not
/// pay for is not made.
pub fn range(alloc: Global, first: &Value, end: &Value, fuel: u64) -> Result<Value, ApplyFail>
    ensures { Answers result (and_then (range_of first.now end.now) (afforded fuel)) }
{
    match (first, end) {
        (Value::Int(first), Value::Int(end)) => paid_range(alloc, *first, *end, fuel),
        _ => Err(wrong_kind(alloc, Function::Range)),
    }
}

#[tactic(auto, using(crate::proofs::FuelLemmas::paid_range))]
fn paid_range(alloc: Global, first: i64, end: i64, fuel: u64) -> Result<Value, ApplyFail>
    ensures { Answers result (afforded fuel (Value.List (ints_from first (count_between first end)))) }
{
    if is_paid(count_between(first, end), fuel) {
        Ok(Value::List(ints_between(alloc, first, end)?))
    } else {
        Err(out_of_fuel(alloc))
    }
}

fn count_between(first: i64, end: i64) -> u64
    ensures { result ≡ count_between first end }
{
    if first < end { end.abs_diff(first) } else { 0 }
}

fn ints_between(alloc: Global, first: i64, end: i64) -> Result<Items<Value>, AllocError>
    ensures { IfOk result (λ items. items ≡ ints_from first (count_between first end)) }
{
    let mut items = Items::new(alloc);
    for n in first..end {
        items.push(Value::Int(n))?;
    }
    Ok(items)
}
