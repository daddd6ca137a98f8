//! Names: locals and inputs.

ghost use Rattle.std.specs.Prelude.{◌≡◌, ◌≢◌};
ghost use Rattle.nb_eval.specs.Locals.{HasNext, place as place_of};
ghost use Rattle.nb_eval.specs.Run.{Meets, Quiet, read, keep, assign, cut_to};

use crate::given::Segment;
use crate::inputs::input_of;
use crate::state::State;
use crate::steps::failure_with;
use crate::stop::Stop;
use nb_value::{ErrorKind, Field, Text, Value};
use std::alloc::Global;

// A copy of the value of a name, whose innermost local stands at this place.
fn value_at(
    alloc: Global,
    given: &Segment,
    state: &State,
    name: &Text,
    place: Option<usize>,
) -> Result<Value, Stop>
    requires { place ≡ place_of name.now state.now.locals }
    ensures { Meets result state.now (read given.now name.now state.now) }
{
    if let Some(at) = place {
        if let Some(local) = state.locals.get(at) {
            return Ok(local.value.copy(alloc)?);
        }
    }
    if let Some(value) = input_of(&given.inputs, name.as_str()) {
        return Ok(value.copy(alloc)?);
    }
    Ok(Value::Null)
}

/// A copy of the value of a name, in time linear in it, after the look-up of the name.
pub fn read(alloc: Global, given: &Segment, state: &State, name: &Text) -> Result<Value, Stop>
    ensures { Meets result state.now (read given.now name.now state.now) }
{
    let place = state.locals.place(name.as_str());
    value_at(alloc, given, state, name, place)
}

/// As `read`, without a look-up of a local that stands where one of the name stood the last time, at `near`, which becomes the
/// local's place.
pub fn read_near(
    alloc: Global,
    given: &Segment,
    state: &State,
    name: &Text,
    near: &mut usize,
) -> Result<Value, Stop>
    ensures { Meets result state.now (read given.now name.now state.now) }
{
    let place = state.locals.place_near(name.as_str(), *near);
    *near = place.unwrap_or(*near);
    value_at(alloc, given, state, name, place)
}

/// A new local, whose value is moved into it. Where memory runs out the state stays as it was.
pub fn keep(alloc: Global, state: &mut State, name: &Text, value: Value) -> Result<(), Stop>
    ensures gives { Meets result state.new (keep name.now value state.old) }
    ensures quiet { Quiet state.old state.new }
    ensures memory { result ≡ Err Stop.Memory → state.new ≡ state.old }
{
    let name = name.copy(alloc)?;
    state.locals.push(alloc, Field { name, value })?;
    Ok(())
}

/// The local of a turn, which is the last: where it stands from the turn before it, the value is moved into it, with no pass
/// over the name, and else it is made. It fails only without memory.
pub fn keep_at(
    alloc: Global,
    state: &mut State,
    at: usize,
    name: &Text,
    value: Value,
) -> Result<(), Stop>
    requires { HasNext name.now at state.old.locals }
    ensures gives { Meets result state.new (keep name.now value (cut_to at state.old).1) }
    ensures quiet { Quiet state.old state.new }
{
    if state.locals.len() == at {
        return keep(alloc, state, name, value);
    }
    state.locals.set(at, name.as_str(), value);
    Ok(())
}

// Moves a value into the innermost local of a name, which stands at this place.
fn assign_at(
    alloc: Global,
    state: &mut State,
    name: &Text,
    value: Value,
    place: Option<usize>,
) -> Result<(), Stop>
    requires { place ≡ place_of name.now state.old.locals }
    ensures gives { Meets result state.new (assign name.now value state.old) }
    ensures quiet { Quiet state.old state.new }
    ensures memory { result ≡ Err Stop.Memory → state.new ≡ state.old }
{
    let Some(at) = place else {
        return Err(failure_with(alloc, ErrorKind::Unassigned, name));
    };
    state.locals.set(at, name.as_str(), value);
    Ok(())
}

/// Moves a value into the innermost local of a name. It takes no memory but for an error.
pub fn assign(alloc: Global, state: &mut State, name: &Text, value: Value) -> Result<(), Stop>
    ensures gives { Meets result state.new (assign name.now value state.old) }
    ensures quiet { Quiet state.old state.new }
    ensures memory { result ≡ Err Stop.Memory → state.new ≡ state.old }
{
    let place = state.locals.place(name.as_str());
    assign_at(alloc, state, name, value, place)
}

/// As `assign`, without a look-up of a local that stands where one of the name stood the last time, at `near`, which becomes
/// the local's place.
pub fn assign_near(
    alloc: Global,
    state: &mut State,
    name: &Text,
    value: Value,
    near: &mut usize,
) -> Result<(), Stop>
    ensures gives { Meets result state.new (assign name.now value state.old) }
    ensures quiet { Quiet state.old state.new }
    ensures memory { result ≡ Err Stop.Memory → state.new ≡ state.old }
{
    let place = state.locals.place_near(name.as_str(), *near);
    *near = place.unwrap_or(*near);
    assign_at(alloc, state, name, value, place)
}
