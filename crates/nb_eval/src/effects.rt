//! Fetches, yields, cleanups and throws.

ghost use Rattle.std.specs.Prelude.{◌≡◌, ◌≢◌, OnOk};
ghost use Rattle.nb_eval.specs.Run.{Meets, Gives, HasRoom, SpendsAtMost, Quiet, ask, value_of, yielded, cleaned, thrown};

use crate::given::Segment;
use crate::state::{FULL_FUEL, State};
use crate::steps::{failure, failure_with};
use crate::stop::Stop;
use nb_value::{Answer, ErrorKind, Value};
use std::alloc::Global;

/// The largest size of a value that is shown.
pub const MAX_SHOWN: u64 = 16_384;

const MAX_KEY: usize = 1_023;

const MAX_FETCHES: u64 = 64;

const MAX_CLEANUP: u64 = 1_024;

const MAX_CLEANUPS: usize = 16;

/// What an answer gives, in time linear in it.
pub fn value_of(alloc: Global, answer: &Answer) -> Result<Value, Stop>
    ensures { Gives result (value_of answer.now) }
{
    match answer {
        Answer::Value(value) => Ok(value.copy(alloc)?),
        Answer::Failure(text) => Err(failure_with(alloc, ErrorKind::FetchFailed, text)),
    }
}

/// What a fetch gives: a copy of the next answer, or the want of one. Where memory runs out the state stays as it was.
pub fn ask(alloc: Global, given: &Segment, state: &mut State, key: Value) -> Result<Value, Stop>
    ensures gives { Meets result state.new (ask given.now key state.old) }
    ensures quiet { Quiet state.old state.new }
    ensures memory { result ≡ Err Stop.Memory → state.new ≡ state.old }
{
    let Value::Text(key) = key else {
        return Err(failure(alloc, ErrorKind::WrongKind, "fetch"));
    };
    if key.len() > MAX_KEY {
        return Err(failure(alloc, ErrorKind::TooLarge, "fetch"));
    }
    if state.fetches >= MAX_FETCHES {
        return Err(failure(alloc, ErrorKind::TooManyFetches, "fetch"));
    }
    match given.answers.get(state.taken) {
        Some(answer) => {
            let _len = given.answers.len();
            let value = value_of(alloc, answer);
            if let Err(Stop::Memory) = value {
                return value;
            }
            state.fetches += 1;
            state.taken += 1;
            value
        }
        None => {
            state.fetches += 1;
            Err(Stop::Needs(key))
        }
    }
}

/// A value that is yielded, and moved into the yields. Where memory runs out the state stays as it was.
pub fn yielded(alloc: Global, given: &Segment, state: &mut State, value: Value) -> Result<(), Stop>
    ensures gives { Meets result state.new (yielded given.now value state.old) }
    ensures memory { result ≡ Err Stop.Memory → state.new ≡ state.old }
    ensures spends { OnOk result (SpendsAtMost given.now state.old state.new) }
{
    if value.size() > MAX_SHOWN {
        return Err(failure(alloc, ErrorKind::TooLarge, "value"));
    }
    state.yields.push(value)?;
    if state.yields.len() as u64 >= given.pulls as u64 {
        return Err(Stop::Paused);
    }
    state.fuel = FULL_FUEL;
    state.fetches = 0;
    Ok(())
}

/// A value to clean up, which is moved into the cleanups. Where memory runs out the state stays as it was.
pub fn cleaned(alloc: Global, state: &mut State, value: Value) -> Result<(), Stop>
    ensures gives { Meets result state.new (cleaned value state.old) }
    ensures quiet { Quiet state.old state.new }
    ensures memory { result ≡ Err Stop.Memory → state.new ≡ state.old }
{
    if value.size() > MAX_CLEANUP || state.cleanups.len() >= MAX_CLEANUPS {
        return Err(failure(alloc, ErrorKind::TooLarge, "cleanup"));
    }
    state.cleanups.push(value)?;
    Ok(())
}

/// The error that throws a value: its text, or else its JSON.
pub fn thrown(alloc: Global, value: &Value) -> Result<(), Stop>
    ensures { Gives result (thrown value.now) }
{
    match value {
        Value::Text(text) => Err(failure_with(alloc, ErrorKind::Thrown, text)),
        _ => {
            let json = value.to_json(alloc)?;
            Err(failure_with(alloc, ErrorKind::Thrown, &json))
        }
    }
}
