//! Errors and charges.

ghost use Rattle.std.specs.Prelude.{◌≡◌, ◌≢◌, ◌+◌, ◌<◌, ◌^◌, IfOk, OnOk, OnErr};
ghost use Rattle.std.specs.Fmt.{take_chars};
ghost use Rattle.nb_value.specs.Value.{size};
ghost use Rattle.nb_eval.specs.Run.{Meets, Gives, HasRoom, Spends, error, charge, tick, done, cut_to, truth_of, items_of, within_depth};

use crate::given::Segment;
use crate::state::State;
use crate::stop::Stop;
use nb_value::{CellError, ErrorKind, Items, Text, Value};
use std::alloc::{AllocError, Global};

/// An error whose detail is a word.
pub fn error(alloc: Global, kind: ErrorKind, word: &str) -> Result<CellError, AllocError>
    ensures { IfOk result (λ e. e ≡ error kind word.now) }
{
    Ok(CellError {
        kind,
        detail: Text::from_str(alloc, word)?,
        via: None,
    })
}

/// What ends an evaluation with an error whose detail is a word.
pub fn failure(alloc: Global, kind: ErrorKind, word: &str) -> Stop
    ensures { result ≢ Stop.Memory → result ≡ Stop.Failed (error kind word.now) }
{
    match error(alloc, kind, word) {
        Ok(error) => Stop::Failed(error),
        Err(_) => Stop::Memory,
    }
}

/// What ends an evaluation with an error whose detail is the front of a text: its first 200 characters.
pub fn failure_with(alloc: Global, kind: ErrorKind, text: &Text) -> Stop
    ensures { result ≢ Stop.Memory → result ≡ Stop.Failed (error kind (take_chars 200 text.now)) }
{
    match text.cut(alloc) {
        Ok(detail) => Stop::Failed(CellError {
            kind,
            detail,
            via: None,
        }),
        Err(_) => Stop::Memory,
    }
}

// A charge of one more than `more`.
fn charge_one_and(alloc: Global, state: &mut State, more: u64) -> Result<(), Stop>
    requires { state.old.charges + 1 < 2 ^ 64 }
    ensures gives { Meets result state.new (charge (1 + more) state.old) }
    ensures memory { result ≢ Err Stop.Memory }
{
    state.charges += 1;
    if more >= state.fuel {
        return Err(Stop::Failed(CellError {
            kind: ErrorKind::OutOfFuel,
            detail: Text::from_string(String::new(alloc)),
            via: None,
        }));
    }
    state.fuel -= more + 1;
    Ok(())
}

/// A charge of 1 and the size of a value. It takes no memory, and time linear in the size.
pub fn charge_node(
    alloc: Global,
    given: &Segment,
    state: &mut State,
    value: &Value,
) -> Result<(), Stop>
    requires { HasRoom given.now state.old }
    ensures gives { Meets result state.new (charge (1 + size value.now) state.old) }
    ensures memory { result ≢ Err Stop.Memory }
    ensures spends { OnOk result (Spends given.now state.old state.new) }
{
    charge_one_and(alloc, state, value.size())
}

/// The charge of a statement. It takes no memory.
pub fn charge_statement(alloc: Global, given: &Segment, state: &mut State) -> Result<(), Stop>
    requires { HasRoom given.now state.old }
    ensures gives { Meets result state.new (tick state.old) }
    ensures memory { result ≢ Err Stop.Memory }
    ensures spends { OnOk result (Spends given.now state.old state.new) }
{
    charge_one_and(alloc, state, 0)
}

/// The charge of a turn of a `for`. Where it fails, the locals past the first `len` end before it. It takes no memory.
pub fn charge_turn(
    alloc: Global,
    given: &Segment,
    state: &mut State,
    len: usize,
) -> Result<(), Stop>
    requires { HasRoom given.now state.old }
    ensures ok { OnOk result (tick state.old ≡ (Ok tt, state.new)) }
    ensures err { OnErr result (tick (cut_to len state.old).1 ≡ (result, state.new)) }
    ensures memory { result ≢ Err Stop.Memory }
    ensures spends { OnOk result (Spends given.now state.old state.new) }
{
    let charged = charge_statement(alloc, given, state);
    if charged.is_err() {
        state.locals.truncate(len);
    }
    charged
}

/// The value of a node, with its charge. It takes no memory, and time linear in the size.
pub fn charged(
    alloc: Global,
    given: &Segment,
    state: &mut State,
    value: Value,
) -> Result<Value, Stop>
    requires { HasRoom given.now state.old }
    ensures gives { Meets result state.new (done value state.old) }
    ensures memory { result ≢ Err Stop.Memory }
    ensures spends { OnOk result (Spends given.now state.old state.new) }
{
    charge_node(alloc, given, state, &value)?;
    Ok(value)
}

/// A truth value, or the error that it is none.
pub fn as_truth(alloc: Global, value: &Value, word: &str) -> Result<bool, Stop>
    ensures { Gives result (truth_of word.now value.now) }
{
    match value {
        Value::Bool(b) => Ok(*b),
        _ => Err(failure(alloc, ErrorKind::WrongKind, word)),
    }
}

/// The items of a list, which are moved out of it, or the error that the value is none.
pub fn as_items(alloc: Global, value: Value, word: &str) -> Result<Items<Value>, Stop>
    ensures { Gives result (items_of word.now value) }
{
    match value {
        Value::List(items) => Ok(items),
        _ => Err(failure(alloc, ErrorKind::WrongKind, word)),
    }
}

/// The deepest that a list or a record of a cell may be.
const MAX_LEVELS: u32 = 64;

/// A list or a record, or the error that it is too deep. It takes time linear in the size.
pub fn within_depth(alloc: Global, value: Value) -> Result<Value, Stop>
    ensures { Gives result (within_depth value) }
{
    if value.depth() > MAX_LEVELS {
        return Err(failure(alloc, ErrorKind::TooLarge, "depth"));
    }
    Ok(value)
}
