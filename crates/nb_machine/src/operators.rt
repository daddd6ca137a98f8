//! The instructions of operators, paths and tests of values.

ghost use Rattle.std.specs.Prelude.{◌≡◌, ◌≢◌, ◌<◌, ◌+◌, ◌^◌, Ok, Err};
ghost use Rattle.nb_machine.specs.Held.{IsHeld, held_does, moved};

use crate::instr::{Instr, Slot};
use crate::point::{Held, Spot};
use crate::stack::{go_on_with, take_value};
use nb_eval::Segment;
use nb_eval::operate::{compared, multiplied, signed, summed};
use nb_eval::path::{field_of, part_of};
use nb_eval::stop::Stop;
use nb_syntax::Sign;
use nb_value::Text;
use std::alloc::Global;

/// The field of the value on top.
#[tactic(auto, using(crate::proofs::Arms::at_field))]
pub fn field(
    alloc: Global,
    given: &Segment,
    spot: &mut Spot,
    held: &Held,
    name: &Text,
) -> Result<(), Stop>
    requires held { IsHeld held.now }
    requires place { spot.old.pc + 1 < 2 ^ 64 }
    ensures { result ≢ Err Stop.Memory → held_does given.now (Instr.Field name.now) spot.old held.now ≡ (moved result spot.new, held.now) }
{
    let value = take_value(&mut spot.slots)?;
    let value = field_of(alloc, &value, name)?;
    go_on_with(spot, Slot::Value(value))
}

/// The part of the value below the top at the index on top.
#[tactic(auto, using(crate::proofs::Arms::at_at))]
pub fn part(alloc: Global, given: &Segment, spot: &mut Spot, held: &Held) -> Result<(), Stop>
    requires held { IsHeld held.now }
    requires place { spot.old.pc + 1 < 2 ^ 64 }
    ensures { result ≢ Err Stop.Memory → held_does given.now (Instr.At) spot.old held.now ≡ (moved result spot.new, held.now) }
{
    let index = take_value(&mut spot.slots)?;
    let value = take_value(&mut spot.slots)?;
    let value = part_of(alloc, &value, &index)?;
    go_on_with(spot, Slot::Value(value))
}

/// What an operator of one part gives for the value on top.
#[tactic(auto, using(crate::proofs::Arms::at_unary))]
pub fn unary(
    alloc: Global,
    given: &Segment,
    spot: &mut Spot,
    held: &Held,
    sign: Sign,
) -> Result<(), Stop>
    requires held { IsHeld held.now }
    requires place { spot.old.pc + 1 < 2 ^ 64 }
    ensures { result ≢ Err Stop.Memory → held_does given.now (Instr.Unary sign) spot.old held.now ≡ (moved result spot.new, held.now) }
{
    let value = take_value(&mut spot.slots)?;
    let value = signed(alloc, sign, &value)?;
    go_on_with(spot, Slot::Value(value))
}

/// What an operator of products gives for the two values on top.
#[tactic(auto, using(crate::proofs::Arms::at_product))]
pub fn product(
    alloc: Global,
    given: &Segment,
    spot: &mut Spot,
    held: &Held,
    sign: Sign,
) -> Result<(), Stop>
    requires held { IsHeld held.now }
    requires place { spot.old.pc + 1 < 2 ^ 64 }
    ensures { result ≢ Err Stop.Memory → held_does given.now (Instr.Product sign) spot.old held.now ≡ (moved result spot.new, held.now) }
{
    let right = take_value(&mut spot.slots)?;
    let left = take_value(&mut spot.slots)?;
    let value = multiplied(alloc, sign, &left, &right)?;
    go_on_with(spot, Slot::Value(value))
}

/// What an operator of sums gives for the two values on top, which are moved into it.
#[tactic(auto, using(crate::proofs::Arms::at_sum))]
pub fn sum(
    alloc: Global,
    given: &Segment,
    spot: &mut Spot,
    held: &Held,
    sign: Sign,
) -> Result<(), Stop>
    requires held { IsHeld held.now }
    requires place { spot.old.pc + 1 < 2 ^ 64 }
    ensures { result ≢ Err Stop.Memory → held_does given.now (Instr.Sum sign) spot.old held.now ≡ (moved result spot.new, held.now) }
{
    let right = take_value(&mut spot.slots)?;
    let left = take_value(&mut spot.slots)?;
    let value = summed(alloc, sign, left, right)?;
    go_on_with(spot, Slot::Value(value))
}

/// What a comparison gives for the two values on top.
#[tactic(auto, using(crate::proofs::Arms::at_compare))]
pub fn compare(
    alloc: Global,
    given: &Segment,
    spot: &mut Spot,
    held: &Held,
    sign: Sign,
) -> Result<(), Stop>
    requires held { IsHeld held.now }
    requires place { spot.old.pc + 1 < 2 ^ 64 }
    ensures { result ≢ Err Stop.Memory → held_does given.now (Instr.Compare sign) spot.old held.now ≡ (moved result spot.new, held.now) }
{
    let right = take_value(&mut spot.slots)?;
    let left = take_value(&mut spot.slots)?;
    let value = compared(alloc, sign, &left, &right)?;
    go_on_with(spot, Slot::Value(value))
}
