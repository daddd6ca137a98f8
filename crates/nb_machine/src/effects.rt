//! The instructions of fetches, yields, cleanups and throws.

ghost use Rattle.std.specs.Prelude.{◌≡◌, ◌≢◌, ◌≤◌, ◌<◌, ◌+◌, ◌-◌, ◌^◌};
ghost use Rattle.nb_machine.specs.Held.{IsHeld, Stays, held_does, left, moved};

use crate::instr::{Instr, Slot};
use crate::point::{Held, Spot};
use crate::stack::{go_on_with, take_value, top_value};
use nb_eval::Segment;
use nb_eval::effects::{MAX_SHOWN, ask, cleaned, thrown};
use nb_eval::state::FULL_FUEL;
use nb_eval::steps::failure;
use nb_eval::stop::Stop;
use nb_value::ErrorKind;
use std::alloc::Global;
use std::mem::drop;

/// The answer to the key on top, by a copy. Where there is none, the key stays there, and the fetch isn't counted.
#[tactic(auto, using(crate::proofs::EffectArms::at_fetch))]
pub fn fetch(alloc: Global, given: &Segment, spot: &mut Spot, held: &mut Held) -> Result<(), Stop>
    requires held { IsHeld held.old }
    requires place { spot.old.pc + 1 < 2 ^ 64 }
    ensures gives { result ≢ Err Stop.Memory → held_does given.now Instr.Fetch spot.old held.old ≡ (moved result spot.new, left result spot.old held.new) }
    ensures stays { Stays result spot.old spot.new held.old held.new }
{
    let Some(key) = top_value(&spot.slots) else {
        return Err(Stop::Memory);
    };
    let key = key.copy(alloc)?;
    let fetches = held.state.fetches;
    match ask(alloc, given, &mut held.state, key) {
        Ok(answer) => {
            drop(take_value(&mut spot.slots)?);
            go_on_with(spot, Slot::Value(answer))
        }
        Err(stop) => {
            if let Stop::Needs(_) = stop {
                held.state.fetches = fetches;
            }
            Err(stop)
        }
    }
}

/// Yields the value on top. Where it waits for a pull, the value stays there, and the yield isn't counted.
#[tactic(auto, using(crate::proofs::EffectArms::at_too_large, crate::proofs::EffectArms::at_paused, crate::proofs::EffectArms::at_yielded))]
pub fn yield_value(
    alloc: Global,
    given: &Segment,
    spot: &mut Spot,
    held: &mut Held,
) -> Result<(), Stop>
    requires held { IsHeld held.old }
    requires pulled { held.old.made ≤ given.now.pulls - 1 }
    requires place { spot.old.pc + 1 < 2 ^ 64 }
    ensures gives { result ≢ Err Stop.Memory → held_does given.now Instr.Yield spot.old held.old ≡ (moved result spot.new, left result spot.old held.new) }
    ensures stays { Stays result spot.old spot.new held.old held.new }
{
    // The pulls bound the yields.
    let pulls = given.pulls;
    let made = held.made + 1;
    let Some(value) = top_value(&spot.slots) else {
        return Err(Stop::Memory);
    };
    if value.size() > MAX_SHOWN {
        return Err(failure(alloc, ErrorKind::TooLarge, "value"));
    }
    if made >= pulls {
        return Err(Stop::Paused);
    }
    held.last = Some(take_value(&mut spot.slots)?);
    held.made = made;
    held.state.fuel = FULL_FUEL;
    held.state.fetches = 0;
    spot.pc += 1;
    Ok(())
}

/// The error that throws the value on top.
#[tactic(auto, using(crate::proofs::EffectArms::at_throw))]
pub fn throw(alloc: Global, given: &Segment, spot: &mut Spot, held: &Held) -> Result<(), Stop>
    requires { IsHeld held.now }
    ensures { result ≢ Err Stop.Memory → held_does given.now Instr.Throw spot.old held.now ≡ (moved result spot.new, held.now) }
{
    let value = take_value(&mut spot.slots)?;
    thrown(alloc, &value)
}

/// Moves the value on top to those that are to clean up.
#[tactic(auto, using(crate::proofs::EffectArms::at_cleanup))]
pub fn cleanup(alloc: Global, given: &Segment, spot: &mut Spot, held: &mut Held) -> Result<(), Stop>
    requires held { IsHeld held.old }
    requires place { spot.old.pc + 1 < 2 ^ 64 }
    ensures { result ≢ Err Stop.Memory → held_does given.now Instr.Cleanup spot.old held.old ≡ (moved result spot.new, held.new) }
{
    let value = take_value(&mut spot.slots)?;
    cleaned(alloc, &mut held.state, value)?;
    spot.pc += 1;
    Ok(())
}
