//! Evaluation by replay.

ghost use Rattle.std.specs.Prelude.{◌≡◌, ◌≢◌, ◌≤◌, ◌+◌, ◌-◌, length, IfOk, OnOk, MatchResult};
ghost use Rattle.nb_eval.specs.Run.{Meets, HasRoom};
ghost use Rattle.nb_eval.specs.Evaluation.{eval_body, within_size, ending_of, last_of, segment_end, charges as charges_of};

use crate::effects::MAX_SHOWN;
use crate::expr::eval_expr;
use crate::finished::Finished;
use crate::given::{Ending, RunEnd, Segment};
use crate::state::State;
use crate::steps::error;
use crate::stmt::exec_block;
use crate::stop::Stop;
use nb_syntax::{Body, is_generator};
use nb_value::{ErrorKind, Items, Value};
use std::alloc::{AllocError, Global};

/// The evaluation of a segment, by replay from its start. It takes memory in proportion to what the evaluation charges,
/// and time in proportion to that, up to a logarithm: of the number of names, or in `sort` of the number of items.
/// The length of names isn't charged: each look-up of a name compares it, each `let` copies it, and a `for` copies it once.
/// Where memory ran out, the segment comes back.
pub fn evaluate(alloc: Global, segment: Segment) -> Result<Finished, (Segment, AllocError)>
    ensures { MatchResult result (λ f. f.segment ≡ segment) (λ e. e.0 ≡ segment) }
{
    match run(alloc, &segment) {
        Ok(end) => Ok(Finished::of(segment, end)),
        Err(refused) => Err((segment, refused)),
    }
}

/// The number of charges that the evaluation of a segment makes, whatever their amounts, with one that fails for want
/// of fuel. It evaluates the segment, and fails only without memory.
pub fn charges(alloc: Global, segment: &Segment) -> Result<u64, AllocError>
    ensures { IfOk result (λ n. n ≡ charges_of segment.now) }
{
    // The pulls bound the charges.
    let _pulls = segment.pulls;
    let mut state = State::new(alloc);
    let outcome = eval_body(&segment.cell.body, alloc, segment, &mut state);
    without_want(outcome)?;
    Ok(state.charges)
}

// Fails where an evaluation ran out of memory.
fn without_want(outcome: Result<Value, Stop>) -> Result<(), AllocError>
    ensures { OnOk result (outcome ≢ Err Stop.Memory) }
{
    match outcome {
        Err(Stop::Memory) => Err(AllocError),
        _ => Ok(()),
    }
}

fn run(alloc: Global, segment: &Segment) -> Result<RunEnd, AllocError>
    ensures { IfOk result (λ end. end ≡ segment_end segment.now) }
{
    let pulls = segment.pulls;
    let mut state = State::new(alloc);
    let outcome = eval_body(&segment.cell.body, alloc, segment, &mut state);
    let ending = ending_of(alloc, is_generator(&segment.cell), outcome)?;
    let State {
        yields,
        cleanups,
        locals,
        ..
    } = state;
    let _locals = locals;
    Ok(RunEnd {
        made: made_of(&yields, pulls),
        last: last_of(alloc, &yields)?,
        cleanups,
        ending,
    })
}

// The number of yields, which the pulls bound.
fn made_of(yields: &Items<Value>, pulls: u32) -> u32
    requires { length yields.now ≤ 1 + (pulls - 1) }
    ensures { result ≡ length yields.now }
{
    yields.len() as u32
}

fn eval_body(body: &Body, alloc: Global, given: &Segment, state: &mut State) -> Result<Value, Stop>
    requires { HasRoom given.now state.old }
    ensures { Meets result state.new (eval_body given.now body.now state.old) }
{
    match body {
        Body::Expr(e) => eval_expr(e, alloc, given, state),
        Body::Block(block) => {
            exec_block(block, alloc, given, state)?;
            Ok(Value::Null)
        }
    }
}

// A value that is done with, which is too large for a cell that is no generator past this size.
fn within_size(alloc: Global, generates: bool, value: Value) -> Result<Ending, AllocError>
    ensures { IfOk result (λ e. e ≡ within_size generates value) }
{
    if generates || value.size() <= MAX_SHOWN {
        return Ok(Ending::Done(value));
    }
    Ok(Ending::Failed(error(alloc, ErrorKind::TooLarge, "value")?))
}

/// How an evaluation ends, of a generator or of another cell, with this outcome. The outcome is moved into it.
pub fn ending_of(
    alloc: Global,
    generates: bool,
    outcome: Result<Value, Stop>,
) -> Result<Ending, AllocError>
    ensures ending { IfOk result (λ e. e ≡ ending_of generates outcome) }
    ensures memory { IfOk result (λ e. outcome ≢ Err Stop.Memory) }
{
    match outcome {
        Ok(value) => within_size(alloc, generates, value),
        Err(Stop::Done(value)) => within_size(alloc, generates, value),
        Err(Stop::Failed(error)) => Ok(Ending::Failed(error)),
        Err(Stop::Needs(key)) => Ok(Ending::Needs(key)),
        Err(Stop::Paused) => Ok(Ending::Paused),
        Err(Stop::Memory) => Err(AllocError),
    }
}

// A copy of the last value.
#[tactic(auto, using(crate::proofs::Lasts::last_is))]
fn last_of(alloc: Global, values: &Items<Value>) -> Result<Option<Value>, AllocError>
    ensures { IfOk result (λ last. last ≡ last_of values.now) }
{
    match values.as_slice().last() {
        Some(value) => Ok(Some(value.copy(alloc)?)),
        None => Ok(None),
    }
}
