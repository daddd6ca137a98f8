ghost use Rattle.std.specs.Prelude.{◌≡◌, [], ◌∷◌, length};
ghost use Rattle.nb_value.specs.Function.{arity};
ghost use Rattle.nb_builtins.specs.Calls.{Answers};
ghost use Rattle.nb_builtins.specs.Apply.{called, applied};

use crate::errors::wrong_kind;
use crate::extremes::{max, min};
use crate::fail::ApplyFail;
use crate::fuel::afforded;
use crate::join::join;
use crate::lengths::len;
use crate::numerals::int;
use crate::orders::sort;
use crate::parts::split;
use crate::ranges::range;
use crate::records::{has, keys, values};
use crate::slices::{reverse, slice};
use crate::sums::{abs, sum};
use crate::texts::text;
use nb_value::{Function, Value};
use std::alloc::Global;

/// The value of a call, or its error: after all other errors that of too little fuel, where 1 and the size of the value
/// is more than the fuel. The time and the memory are linear in the sizes of the arguments and, for `range` and `join`,
/// in those of what the fuel pays for; `sort` makes `n * log n` comparisons of its items.
pub fn apply(
    alloc: Global,
    function: Function,
    args: &[Value],
    fuel: u64,
) -> Result<Value, ApplyFail>
    requires { length args.now ≡ arity function }
    ensures { Answers result (applied function args.now fuel) }
{
    match args {
        [value] => {
            let value = with_one(alloc, function, value)?;
            afforded(alloc, value, fuel)
        }
        [first, second] => with_two(alloc, function, first, second, fuel),
        [first, second, third] => {
            let value = with_three(alloc, function, first, second, third)?;
            afforded(alloc, value, fuel)
        }
        _ => Err(wrong_kind(alloc, function)),
    }
}

#[tactic(auto, unfolding(crate::specs::Apply::called))]
fn with_one(alloc: Global, function: Function, value: &Value) -> Result<Value, ApplyFail>
    ensures { Answers result (called function (value.now ∷ [])) }
{
    match function {
        Function::Len => len(alloc, value),
        Function::Sum => sum(alloc, value),
        Function::Min => min(alloc, value),
        Function::Max => max(alloc, value),
        Function::Abs => abs(alloc, value),
        Function::Reverse => reverse(alloc, value),
        Function::Sort => sort(alloc, value),
        Function::Keys => keys(alloc, value),
        Function::Values => values(alloc, value),
        Function::Text => text(alloc, value),
        Function::Int => int(alloc, value),
        _ => Err(wrong_kind(alloc, function)),
    }
}

#[tactic(auto, unfolding(crate::specs::Apply::called))]
fn with_two(
    alloc: Global,
    function: Function,
    first: &Value,
    second: &Value,
    fuel: u64,
) -> Result<Value, ApplyFail>
    ensures { Answers result (applied function (first.now ∷ second.now ∷ []) fuel) }
{
    match function {
        Function::Range => range(alloc, first, second, fuel),
        Function::Join => join(alloc, first, second, fuel),
        Function::Has => {
            let value = has(alloc, first, second)?;
            afforded(alloc, value, fuel)
        }
        Function::Split => {
            let value = split(alloc, first, second)?;
            afforded(alloc, value, fuel)
        }
        _ => Err(wrong_kind(alloc, function)),
    }
}

#[tactic(auto, unfolding(crate::specs::Apply::called))]
fn with_three(
    alloc: Global,
    function: Function,
    first: &Value,
    second: &Value,
    third: &Value,
) -> Result<Value, ApplyFail>
    ensures { Answers result (called function (first.now ∷ second.now ∷ third.now ∷ [])) }
{
    match function {
        Function::Slice => slice(alloc, first, second, third),
        _ => Err(wrong_kind(alloc, function)),
    }
}
