//! The instructions of statements.

ghost use Rattle.std.specs.Prelude.{◌≡◌, ◌≢◌, ◌<◌, ◌+◌, ◌^◌};
ghost use Rattle.nb_eval.specs.Run.{HasRoom};
ghost use Rattle.nb_machine.specs.Held.{IsHeld, held_does, moved};

use crate::instr::{Instr, Slot, Word};
use crate::point::{Held, Spot};
use crate::stack::{go_on_with, jump, put, take_mark, take_turns, take_value};
use crate::turns::Turns;
use nb_eval::Segment;
use nb_eval::names::{assign_near, keep};
use nb_eval::steps::{as_items, as_truth, charge_statement};
use nb_eval::stop::Stop;
use nb_value::Text;
use std::alloc::Global;

/// The charge of a statement. It takes no memory.
#[tactic(auto, using(crate::proofs::StatementArms::at_tick))]
pub fn tick(alloc: Global, given: &Segment, spot: &mut Spot, held: &mut Held) -> Result<(), Stop>
    requires held { IsHeld held.old }
    requires room { HasRoom given.now held.old.state }
    requires place { spot.old.pc + 1 < 2 ^ 64 }
    ensures { result ≢ Err Stop.Memory → held_does given.now Instr.Tick spot.old held.old ≡ (moved result spot.new, held.new) }
{
    charge_statement(alloc, given, &mut held.state)?;
    spot.pc += 1;
    Ok(())
}

/// A jump where the value on top is false, which is taken from it.
#[tactic(auto, using(crate::proofs::StatementArms::at_unless))]
pub fn unless(
    alloc: Global,
    given: &Segment,
    spot: &mut Spot,
    held: &Held,
    word: Word,
    skip: usize,
) -> Result<(), Stop>
    requires held { IsHeld held.now }
    requires place { spot.old.pc + 1 < 2 ^ 64 }
    ensures { result ≢ Err Stop.Memory → held_does given.now (Instr.Unless word skip) spot.old held.now ≡ (moved result spot.new, held.now) }
{
    let value = take_value(&mut spot.slots)?;
    if as_truth(alloc, &value, word.text())? {
        spot.pc += 1;
        return Ok(());
    }
    jump(spot, skip)
}

/// A jump where the value on top is true, which is taken from it.
#[tactic(auto, using(crate::proofs::StatementArms::at_when))]
pub fn when(
    alloc: Global,
    given: &Segment,
    spot: &mut Spot,
    held: &Held,
    word: Word,
    skip: usize,
) -> Result<(), Stop>
    requires held { IsHeld held.now }
    requires place { spot.old.pc + 1 < 2 ^ 64 }
    ensures { result ≢ Err Stop.Memory → held_does given.now (Instr.When word skip) spot.old held.now ≡ (moved result spot.new, held.now) }
{
    let value = take_value(&mut spot.slots)?;
    if as_truth(alloc, &value, word.text())? {
        return jump(spot, skip);
    }
    spot.pc += 1;
    Ok(())
}

/// A jump. It takes no memory.
#[tactic(auto, using(crate::proofs::StatementArms::at_go))]
pub fn go(given: &Segment, spot: &mut Spot, held: &Held, skip: usize) -> Result<(), Stop>
    requires held { IsHeld held.now }
    requires place { spot.old.pc + 1 < 2 ^ 64 }
    ensures { result ≢ Err Stop.Memory → held_does given.now (Instr.Go skip) spot.old held.now ≡ (moved result spot.new, held.now) }
{
    jump(spot, skip)
}

/// A jump back. It takes no memory.
#[tactic(auto, using(crate::proofs::StatementArms::at_back))]
pub fn back(given: &Segment, spot: &mut Spot, held: &Held, skip: usize) -> Result<(), Stop>
    requires { IsHeld held.now }
    ensures { result ≢ Err Stop.Memory → held_does given.now (Instr.Back skip) spot.old held.now ≡ (moved result spot.new, held.now) }
{
    spot.pc = spot.pc.saturating_sub(skip);
    Ok(())
}

/// A new local, into which the value on top is moved.
#[tactic(auto, using(crate::proofs::StatementArms::at_let))]
pub fn let_local(
    alloc: Global,
    given: &Segment,
    spot: &mut Spot,
    held: &mut Held,
    name: &Text,
) -> Result<(), Stop>
    requires held { IsHeld held.old }
    requires place { spot.old.pc + 1 < 2 ^ 64 }
    ensures { result ≢ Err Stop.Memory → held_does given.now (Instr.Let name.now) spot.old held.old ≡ (moved result spot.new, held.new) }
{
    let value = take_value(&mut spot.slots)?;
    keep(alloc, &mut held.state, name, value)?;
    spot.pc += 1;
    Ok(())
}

/// Moves the value on top into the innermost local of a name, without a look-up where it stands at `near`.
#[tactic(auto, using(crate::proofs::StatementArms::at_assign))]
pub fn assign(
    alloc: Global,
    given: &Segment,
    spot: &mut Spot,
    held: &mut Held,
    name: &Text,
    near: &mut usize,
) -> Result<(), Stop>
    requires held { IsHeld held.old }
    requires place { spot.old.pc + 1 < 2 ^ 64 }
    ensures { result ≢ Err Stop.Memory → held_does given.now (Instr.Assign name.now) spot.old held.old ≡ (moved result spot.new, held.new) }
{
    let value = take_value(&mut spot.slots)?;
    assign_near(alloc, &mut held.state, name, value, near)?;
    spot.pc += 1;
    Ok(())
}

/// A mark of the locals that hold.
#[tactic(auto, using(crate::proofs::StatementArms::at_enter))]
pub fn enter(given: &Segment, spot: &mut Spot, held: &Held) -> Result<(), Stop>
    requires held { IsHeld held.now }
    requires place { spot.old.pc + 1 < 2 ^ 64 }
    ensures { result ≢ Err Stop.Memory → held_does given.now Instr.Enter spot.old held.now ≡ (moved result spot.new, held.now) }
{
    go_on_with(spot, Slot::Mark(held.state.locals.len()))
}

/// Ends the locals after the mark on top. It takes no memory.
#[tactic(auto, using(crate::proofs::StatementArms::at_leave))]
pub fn leave(given: &Segment, spot: &mut Spot, held: &mut Held) -> Result<(), Stop>
    requires held { IsHeld held.old }
    requires place { spot.old.pc + 1 < 2 ^ 64 }
    ensures { result ≢ Err Stop.Memory → held_does given.now Instr.Leave spot.old held.old ≡ (moved result spot.new, held.new) }
{
    let len = take_mark(&mut spot.slots)?;
    held.state.locals.truncate(len);
    spot.pc += 1;
    Ok(())
}

/// The items of the list on top as the turns of a `for`.
#[tactic(auto, using(crate::proofs::StatementArms::at_turns))]
pub fn begin_turns(alloc: Global, given: &Segment, spot: &mut Spot, held: &Held) -> Result<(), Stop>
    requires held { IsHeld held.now }
    requires place { spot.old.pc + 1 < 2 ^ 64 }
    ensures { result ≢ Err Stop.Memory → held_does given.now Instr.Turns spot.old held.now ≡ (moved result spot.new, held.now) }
{
    let value = take_value(&mut spot.slots)?;
    let items = as_items(alloc, value, "for")?;
    go_on_with(spot, Slot::Turns(Turns::new(items)))
}

/// A jump where no turns are left, past their end.
#[tactic(auto, using(crate::proofs::StatementArms::at_next, crate::proofs::StatementArms::at_last))]
pub fn next_turn(given: &Segment, spot: &mut Spot, held: &Held, skip: usize) -> Result<(), Stop>
    requires held { IsHeld held.now }
    requires place { spot.old.pc + 1 < 2 ^ 64 }
    ensures { result ≢ Err Stop.Memory → held_does given.now (Instr.Next skip) spot.old held.now ≡ (moved result spot.new, held.now) }
{
    let turns = take_turns(&mut spot.slots)?;
    if turns.is_empty() {
        return jump(spot, skip);
    }
    go_on_with(spot, Slot::Turns(turns))
}

/// The value of the next turn, as a local after a mark.
#[tactic(auto, using(crate::proofs::StatementArms::at_take))]
pub fn take_turn(
    alloc: Global,
    given: &Segment,
    spot: &mut Spot,
    held: &mut Held,
    name: &Text,
) -> Result<(), Stop>
    requires held { IsHeld held.old }
    requires place { spot.old.pc + 1 < 2 ^ 64 }
    ensures { result ≢ Err Stop.Memory → held_does given.now (Instr.Take name.now) spot.old held.old ≡ (moved result spot.new, held.new) }
{
    let mut turns = take_turns(&mut spot.slots)?;
    let Some(value) = turns.take(alloc)? else {
        return Err(Stop::Memory);
    };
    let len = held.state.locals.len();
    keep(alloc, &mut held.state, name, value)?;
    put(&mut spot.slots, Slot::Turns(turns))?;
    go_on_with(spot, Slot::Mark(len))
}

/// Ends the evaluation with the value on top. It takes no memory.
#[tactic(auto, using(crate::proofs::StatementArms::at_return))]
pub fn return_value(given: &Segment, spot: &mut Spot, held: &Held) -> Result<(), Stop>
    requires { IsHeld held.now }
    ensures { result ≢ Err Stop.Memory → held_does given.now Instr.Return spot.old held.now ≡ (moved result spot.new, held.now) }
{
    let value = take_value(&mut spot.slots)?;
    Err(Stop::Done(value))
}
