//! Calls of functions.

ghost use Rattle.std.specs.Prelude.{◌≡◌, ◌≢◌, OnOk};
ghost use Rattle.nb_eval.specs.Run.{Meets, HasRoom, Spends};
ghost use Rattle.nb_eval.specs.Evaluation.{call, unpaid};

use crate::given::Segment;
use crate::state::State;
use crate::steps::{charged, failure};
use crate::stop::Stop;
use nb_builtins::{ApplyFail, apply};
use nb_value::{CellError, ErrorKind, Function, Items, Value};
use std::alloc::Global;

// Counts the charge that failed, where want of fuel is the error.
fn count_unpaid(given: &Segment, state: &mut State, error: &CellError)
    requires { HasRoom given.now state.old }
    ensures { state.new ≡ unpaid error.now.kind state.old }
{
    if error.kind == ErrorKind::OutOfFuel {
        state.charges += 1;
    }
}

/// What a function gives, with its charge, in time linear in the arguments and in what is charged; `sort` makes
/// `n * log n` comparisons of its items. A value that the fuel doesn't pay for isn't built.
#[tactic(auto, using(crate::proofs::Calls::call_stops, crate::proofs::Calls::call_wrong))]
pub fn call(
    alloc: Global,
    given: &Segment,
    state: &mut State,
    function: Function,
    args: &Items<Value>,
) -> Result<Value, Stop>
    requires { HasRoom given.now state.old }
    ensures gives { Meets result state.new (call function args.now state.old) }
    ensures memory { result ≡ Err Stop.Memory → state.new ≡ state.old }
    ensures spends { OnOk result (Spends given.now state.old state.new) }
{
    if args.len() != function.arity() {
        return Err(failure(alloc, ErrorKind::WrongKind, function.name()));
    }
    match apply(alloc, function, args.as_slice(), state.fuel) {
        Ok(value) => charged(alloc, given, state, value),
        Err(ApplyFail::Memory) => Err(Stop::Memory),
        Err(ApplyFail::Error(error)) => {
            count_unpaid(given, state, &error);
            Err(Stop::Failed(error))
        }
    }
}
