//! The instructions of values.

ghost use Rattle.std.specs.Prelude.{◌≡◌, ◌≢◌, ◌<◌, ◌+◌, ◌^◌, Ok, Err};
ghost use Rattle.nb_eval.specs.Run.{HasRoom};
ghost use Rattle.nb_machine.specs.Held.{IsHeld, held_does, moved};

use crate::instr::{Instr, Slot};
use crate::point::{Held, Spot};
use crate::stack::{go_on_with, take_fields, take_value, take_values};
use nb_builtins::{ApplyFail, apply};
use nb_eval::Segment;
use nb_eval::members::Members;
use nb_eval::names::read_near;
use nb_eval::steps::{charge_node, failure, within_depth};
use nb_eval::stop::Stop;
use nb_value::{ErrorKind, Function, Items, Text, Value};
use std::alloc::Global;

/// A value of the text, by a copy.
#[tactic(auto, using(crate::proofs::Arms::at_const))]
pub fn constant(
    alloc: Global,
    given: &Segment,
    spot: &mut Spot,
    held: &Held,
    value: &Value,
) -> Result<(), Stop>
    requires held { IsHeld held.now }
    requires place { spot.old.pc + 1 < 2 ^ 64 }
    ensures { result ≢ Err Stop.Memory → held_does given.now (Instr.Const value.now) spot.old held.now ≡ (moved result spot.new, held.now) }
{
    let value = value.copy(alloc)?;
    go_on_with(spot, Slot::Value(value))
}

/// A copy of the value of a name, without a look-up where its local stands at `near`.
#[tactic(auto, using(crate::proofs::Arms::at_name))]
pub fn name(
    alloc: Global,
    given: &Segment,
    spot: &mut Spot,
    held: &Held,
    name: &Text,
    near: &mut usize,
) -> Result<(), Stop>
    requires held { IsHeld held.now }
    requires place { spot.old.pc + 1 < 2 ^ 64 }
    ensures { result ≢ Err Stop.Memory → held_does given.now (Instr.Name name.now) spot.old held.now ≡ (moved result spot.new, held.now) }
{
    let value = read_near(alloc, given, &held.state, name, near)?;
    go_on_with(spot, Slot::Value(value))
}

/// No values yet, of a list or of a call.
#[tactic(auto, using(crate::proofs::Arms::at_values))]
pub fn no_values(alloc: Global, given: &Segment, spot: &mut Spot, held: &Held) -> Result<(), Stop>
    requires held { IsHeld held.now }
    requires place { spot.old.pc + 1 < 2 ^ 64 }
    ensures { result ≢ Err Stop.Memory → held_does given.now (Instr.Values) spot.old held.now ≡ (moved result spot.new, held.now) }
{
    go_on_with(spot, Slot::Values(Items::new(alloc)))
}

/// Moves the value on top to the values below it.
#[tactic(auto, using(crate::proofs::Arms::at_append))]
pub fn append(given: &Segment, spot: &mut Spot, held: &Held) -> Result<(), Stop>
    requires held { IsHeld held.now }
    requires place { spot.old.pc + 1 < 2 ^ 64 }
    ensures { result ≢ Err Stop.Memory → held_does given.now (Instr.Append) spot.old held.now ≡ (moved result spot.new, held.now) }
{
    let value = take_value(&mut spot.slots)?;
    let mut values = take_values(&mut spot.slots)?;
    values.push(value)?;
    go_on_with(spot, Slot::Values(values))
}

/// The list of the values on top.
#[tactic(auto, using(crate::proofs::Arms::at_list))]
pub fn list(alloc: Global, given: &Segment, spot: &mut Spot, held: &Held) -> Result<(), Stop>
    requires held { IsHeld held.now }
    requires place { spot.old.pc + 1 < 2 ^ 64 }
    ensures { result ≢ Err Stop.Memory → held_does given.now (Instr.List) spot.old held.now ≡ (moved result spot.new, held.now) }
{
    let values = take_values(&mut spot.slots)?;
    let value = within_depth(alloc, Value::List(values))?;
    go_on_with(spot, Slot::Value(value))
}

/// No fields yet, of a record.
#[tactic(auto, using(crate::proofs::Arms::at_fields))]
pub fn no_fields(alloc: Global, given: &Segment, spot: &mut Spot, held: &Held) -> Result<(), Stop>
    requires held { IsHeld held.now }
    requires place { spot.old.pc + 1 < 2 ^ 64 }
    ensures { result ≢ Err Stop.Memory → held_does given.now (Instr.Fields) spot.old held.now ≡ (moved result spot.new, held.now) }
{
    go_on_with(spot, Slot::Fields(Members::new(alloc)))
}

/// Moves the value on top to the fields below it, under a key.
#[tactic(auto, using(crate::proofs::Arms::at_put))]
pub fn put_field(
    alloc: Global,
    given: &Segment,
    spot: &mut Spot,
    held: &Held,
    key: &Text,
) -> Result<(), Stop>
    requires held { IsHeld held.now }
    requires place { spot.old.pc + 1 < 2 ^ 64 }
    ensures { result ≢ Err Stop.Memory → held_does given.now (Instr.Put key.now) spot.old held.now ≡ (moved result spot.new, held.now) }
{
    let value = take_value(&mut spot.slots)?;
    let mut fields = take_fields(&mut spot.slots)?;
    fields.put(alloc, key, value)?;
    go_on_with(spot, Slot::Fields(fields))
}

/// The record of the fields on top.
#[tactic(auto, using(crate::proofs::Arms::at_record))]
pub fn record(alloc: Global, given: &Segment, spot: &mut Spot, held: &Held) -> Result<(), Stop>
    requires held { IsHeld held.now }
    requires place { spot.old.pc + 1 < 2 ^ 64 }
    ensures { result ≢ Err Stop.Memory → held_does given.now (Instr.Record) spot.old held.now ≡ (moved result spot.new, held.now) }
{
    let fields = take_fields(&mut spot.slots)?;
    let value = within_depth(alloc, Value::Rec(fields.into_pairs(alloc)?))?;
    go_on_with(spot, Slot::Value(value))
}

/// The charge of what is on top. It takes no memory but for an error, and time linear in the value.
#[tactic(auto, using(crate::proofs::Arms::at_charge, crate::proofs::Arms::at_unpaid))]
pub fn charge(alloc: Global, given: &Segment, spot: &mut Spot, held: &mut Held) -> Result<(), Stop>
    requires held { IsHeld held.old }
    requires room { HasRoom given.now held.old.state }
    requires place { spot.old.pc + 1 < 2 ^ 64 }
    ensures { result ≢ Err Stop.Memory → held_does given.now Instr.Charge spot.old held.old ≡ (moved result spot.new, held.new) }
{
    match spot.slots.top() {
        Some(Slot::Value(value)) => charge_node(alloc, given, &mut held.state, value)?,
        Some(Slot::Unpaid) => {
            held.state.charges += 1;
            return Err(failure(alloc, ErrorKind::OutOfFuel, ""));
        }
        _ => return Err(Stop::Memory),
    }
    spot.pc += 1;
    Ok(())
}

/// What a function gives for the values on top. A value that the fuel doesn't pay for isn't built.
#[tactic(auto, using(crate::proofs::Arms::at_paid, crate::proofs::Arms::at_unbilled, crate::proofs::Arms::at_failed, crate::proofs::Arms::at_wrong_count))]
pub fn call(
    alloc: Global,
    given: &Segment,
    spot: &mut Spot,
    held: &Held,
    function: Function,
) -> Result<(), Stop>
    requires held { IsHeld held.now }
    requires place { spot.old.pc + 1 < 2 ^ 64 }
    ensures { result ≢ Err Stop.Memory → held_does given.now (Instr.Call function) spot.old held.now ≡ (moved result spot.new, held.now) }
{
    let values = take_values(&mut spot.slots)?;
    if values.len() != function.arity() {
        return Err(failure(alloc, ErrorKind::WrongKind, function.name()));
    }
    match apply(alloc, function, values.as_slice(), held.state.fuel) {
        Ok(value) => go_on_with(spot, Slot::Value(value)),
        Err(ApplyFail::Error(error)) if error.kind == ErrorKind::OutOfFuel => {
            go_on_with(spot, Slot::Unpaid)
        }
        Err(ApplyFail::Error(error)) => Err(Stop::Failed(error)),
        Err(ApplyFail::Memory) => Err(Stop::Memory),
    }
}
