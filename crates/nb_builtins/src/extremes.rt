ghost use Rattle.std.specs.Prelude.{◌≡◌, ◌∷◌};
ghost use Rattle.std.specs.List.{best_of, list_all};
ghost use Rattle.nb_builtins.specs.Calls.{Answers};
ghost use Rattle.nb_builtins.specs.Extremes.{is_int, is_text, is_below, is_above, are_alike, IsExtreme, min_of, max_of};

use crate::errors::{out_of_range, wrong_kind};
use crate::fail::ApplyFail;
use nb_value::{Function, Value};
use std::alloc::Global;
use std::cmp::Ordering;

/// The least of a list of numbers or of texts, in time linear in the list's size.
pub fn min(alloc: Global, value: &Value) -> Result<Value, ApplyFail>
    ensures { Answers result (min_of value.now) }
{
    let Value::List(items) = value else {
        return Err(wrong_kind(alloc, Function::Min));
    };
    let Some((first, others)) = items.as_slice().split_first() else {
        return Err(out_of_range(alloc, Function::Min));
    };
    if !are_alike(items.as_slice()) {
        return Err(wrong_kind(alloc, Function::Min));
    }
    Ok(least(first, others).copy(alloc)?)
}

fn least<'a>(first: &'a Value, others: &'a [Value]) -> &'a Value
    ensures value { result.now ≡ best_of is_below first.now others.now }
    ensures least { IsExtreme is_below (first.now ∷ others.now) result.now }
{
    let mut best = first;
    for item in others {
        if item.compare(best) == Ordering::Less {
            best = item;
        }
    }
    best
}

/// The greatest of a list of numbers or of texts, in time linear in the list's size.
pub fn max(alloc: Global, value: &Value) -> Result<Value, ApplyFail>
    ensures { Answers result (max_of value.now) }
{
    let Value::List(items) = value else {
        return Err(wrong_kind(alloc, Function::Max));
    };
    let Some((first, others)) = items.as_slice().split_first() else {
        return Err(out_of_range(alloc, Function::Max));
    };
    if !are_alike(items.as_slice()) {
        return Err(wrong_kind(alloc, Function::Max));
    }
    Ok(greatest(first, others).copy(alloc)?)
}

fn greatest<'a>(first: &'a Value, others: &'a [Value]) -> &'a Value
    ensures value { result.now ≡ best_of is_above first.now others.now }
    ensures greatest { IsExtreme is_above (first.now ∷ others.now) result.now }
{
    let mut best = first;
    for item in others {
        if item.compare(best) == Ordering::Greater {
            best = item;
        }
    }
    best
}

fn are_alike(items: &[Value]) -> bool
    ensures { result ≡ are_alike items.now }
{
    are_ints(items) || are_texts(items)
}

fn are_ints(items: &[Value]) -> bool
    ensures { result ≡ list_all is_int items.now }
{
    items.iter().all(|item| matches!(item, Value::Int(_)))
}

fn are_texts(items: &[Value]) -> bool
    ensures { result ≡ list_all is_text items.now }
{
    items.iter().all(|item| matches!(item, Value::Text(_)))
}
