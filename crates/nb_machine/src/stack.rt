//! What stands on a machine's stack.

ghost use Rattle.std.specs.Prelude.{◌≡◌, ◌∷◌, ◌<◌, ◌+◌, ◌^◌, Ok, Err, IfOk, OnOk, OnErr, IfErr};
ghost use Rattle.std.specs.Option.{option_copied};
ghost use Rattle.nb_machine.specs.declared.instr.Slot.TheVariants as slot;
ghost use Rattle.nb_machine.specs.Machine.{spot as spot_at};
ghost use Rattle.nb_machine.specs.Held.{top_value};

use crate::instr::Slot;
use crate::pile::Pile;
use crate::point::Spot;
use crate::turns::Turns;
use nb_eval::members::Members;
use nb_eval::stop::Stop;
use nb_value::{Items, Value};

/// The value on top, where a value is.
#[tactic(auto, using(crate::proofs::Owed::value_top))]
pub fn top_value(slots: &Pile<Slot>) -> Option<&Value>
    ensures { option_copied result ≡ top_value slots.now }
{
    match slots.top() {
        Some(Slot::Value(value)) => Some(value),
        _ => None,
    }
}

/// Takes the value on top. A cell's code finds one where it takes one.
pub fn take_value(slots: &mut Pile<Slot>) -> Result<Value, Stop>
    ensures ok { IfOk result (λ v. slots.old ≡ slot.Value v ∷ slots.new) }
    ensures err { IfErr result (λ e. e ≡ Stop.Memory) }
{
    match slots.pop() {
        Some(Slot::Value(value)) => Ok(value),
        _ => Err(Stop::Memory),
    }
}

/// Takes the turns on top. A cell's code finds them where it takes them.
pub fn take_turns(slots: &mut Pile<Slot>) -> Result<Turns, Stop>
    ensures ok { IfOk result (λ turns. slots.old ≡ slot.Turns turns ∷ slots.new) }
    ensures err { IfErr result (λ e. e ≡ Stop.Memory) }
{
    match slots.pop() {
        Some(Slot::Turns(turns)) => Ok(turns),
        _ => Err(Stop::Memory),
    }
}

/// Takes the values so far of a list or of a call. A cell's code finds them where it takes them.
pub fn take_values(slots: &mut Pile<Slot>) -> Result<Items<Value>, Stop>
    ensures ok { IfOk result (λ vs. slots.old ≡ slot.Values vs ∷ slots.new) }
    ensures err { IfErr result (λ e. e ≡ Stop.Memory) }
{
    match slots.pop() {
        Some(Slot::Values(values)) => Ok(values),
        _ => Err(Stop::Memory),
    }
}

/// Takes the fields so far of a record. A cell's code finds them where it takes them.
pub fn take_fields(slots: &mut Pile<Slot>) -> Result<Members, Stop>
    ensures ok { IfOk result (λ fs. slots.old ≡ slot.Fields fs ∷ slots.new) }
    ensures err { IfErr result (λ e. e ≡ Stop.Memory) }
{
    match slots.pop() {
        Some(Slot::Fields(fields)) => Ok(fields),
        _ => Err(Stop::Memory),
    }
}

/// Takes the mark on top. A cell's code finds one where it takes one.
pub fn take_mark(slots: &mut Pile<Slot>) -> Result<usize, Stop>
    ensures ok { IfOk result (λ len. slots.old ≡ slot.Mark len ∷ slots.new) }
    ensures err { IfErr result (λ e. e ≡ Stop.Memory) }
{
    match slots.pop() {
        Some(Slot::Mark(len)) => Ok(len),
        _ => Err(Stop::Memory),
    }
}

/// Puts this on top.
pub fn put(slots: &mut Pile<Slot>, slot: Slot) -> Result<(), Stop>
    ensures ok { OnOk result (slots.new ≡ slot ∷ slots.old) }
    ensures err { IfErr result (λ e. e ≡ Stop.Memory) }
{
    match slots.push(slot) {
        Ok(()) => Ok(()),
        Err(slot) => {
            drop(slot);
            Err(Stop::Memory)
        }
    }
}

/// On to the next instruction, with this on top.
pub fn go_on_with(spot: &mut Spot, slot: Slot) -> Result<(), Stop>
    requires { spot.old.pc + 1 < 2 ^ 64 }
    ensures ok { OnOk result (spot.new ≡ spot_at (spot.old.pc + 1) (slot ∷ spot.old.slots)) }
    ensures err { IfErr result (λ e. e ≡ Stop.Memory) }
{
    put(&mut spot.slots, slot)?;
    spot.pc += 1;
    Ok(())
}

/// On past so many instructions after this one.
pub fn jump(spot: &mut Spot, skip: usize) -> Result<(), Stop>
    requires { spot.old.pc + 1 < 2 ^ 64 }
    ensures ok { OnOk result (spot.new ≡ spot_at (spot.old.pc + 1 + skip) spot.old.slots) }
    ensures err { IfErr result (λ e. e ≡ Stop.Memory) }
{
    match (spot.pc + 1).checked_add(skip) {
        Some(pc) => {
            spot.pc = pc;
            Ok(())
        }
        None => Err(Stop::Memory),
    }
}
