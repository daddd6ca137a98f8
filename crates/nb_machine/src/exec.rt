//! One instruction.

ghost use Rattle.std.specs.Prelude.{◌≡◌, ◌≢◌, ◌≤◌, ◌<◌, ◌+◌, ◌-◌, ◌^◌, false};
ghost use Rattle.nb_eval.specs.Run.{HasRoom};
ghost use Rattle.nb_machine.specs.Held.{IsHeld, Stays, goes_on, held_does, held_step, left, moved};

use crate::effects::{cleanup, fetch, throw, yield_value};
use crate::instr::Instr;
use crate::operators::{compare, field, part, product, sum, unary};
use crate::point::{Held, Spot};
use crate::statements::{
    assign, back, begin_turns, enter, go, leave, let_local, next_turn, return_value, take_turn,
    tick, unless, when,
};
use crate::values::{
    append, call, charge, constant, list, name, no_fields, no_values, put_field, record,
};
use nb_eval::Segment;
use nb_eval::stop::Stop;
use std::alloc::Global;
use std::mem::drop;

/// The next instruction. Where it stops for want of an answer or of a pull, the spot and what is held stay as they were.
#[tactic(auto, using(crate::proofs::Execs::known, crate::proofs::Execs::settles))]
pub fn exec(
    alloc: Global,
    given: &Segment,
    code: &[Instr],
    nears: &mut [usize],
    spot: &mut Spot,
    held: &mut Held,
) -> Result<(), Stop>
    requires held { IsHeld held.old }
    requires pulled { held.old.made ≤ given.now.pulls - 1 }
    requires room { HasRoom given.now held.old.state }
    ensures gives { result ≢ Err Stop.Memory → held_step given.now code.now spot.old held.old ≡ (moved result spot.new, left result spot.old held.new) }
    ensures stays { Stays result spot.old spot.new held.old held.new }
{
    let Some(instr) = code.get(spot.pc) else {
        return Err(Stop::Memory);
    };
    let Some(near) = nears.get_mut(spot.pc) else {
        return Err(Stop::Memory);
    };
    match instr {
        Instr::Fetch => fetch(alloc, given, spot, held),
        Instr::Yield => yield_value(alloc, given, spot, held),
        _ => ending(with_values(alloc, given, instr, near, spot, held)),
    }
}

// What came of an instruction that neither wants an answer nor pauses.
fn ending(outcome: Result<(), Stop>) -> Result<(), Stop>
    ensures same { result ≢ Err Stop.Memory → result ≡ outcome }
    ensures ends { (x : Stop) → result ≡ Err x → goes_on x ≡ false }
{
    match outcome {
        Err(Stop::Needs(key)) => {
            drop(key);
            Err(Stop::Memory)
        }
        Err(Stop::Paused) => Err(Stop::Memory),
        other => other,
    }
}

// An instruction of values, or another one.
fn with_values(
    alloc: Global,
    given: &Segment,
    instr: &Instr,
    near: &mut usize,
    spot: &mut Spot,
    held: &mut Held,
) -> Result<(), Stop>
    requires held { IsHeld held.old }
    requires room { HasRoom given.now held.old.state }
    requires place { spot.old.pc + 1 < 2 ^ 64 }
    ensures { result ≢ Err Stop.Memory → held_does given.now instr.now spot.old held.old ≡ (moved result spot.new, held.new) }
{
    match instr {
        Instr::Const(value) => constant(alloc, given, spot, held, value),
        Instr::Name(text) => name(alloc, given, spot, held, text, near),
        Instr::Charge => charge(alloc, given, spot, held),
        Instr::Values => no_values(alloc, given, spot, held),
        Instr::Append => append(given, spot, held),
        Instr::List => list(alloc, given, spot, held),
        Instr::Call(function) => call(alloc, given, spot, held, *function),
        Instr::Fields => no_fields(alloc, given, spot, held),
        Instr::Put(key) => put_field(alloc, given, spot, held, key),
        Instr::Record => record(alloc, given, spot, held),
        Instr::Field(text) => field(alloc, given, spot, held, text),
        Instr::At => part(alloc, given, spot, held),
        Instr::Unary(sign) => unary(alloc, given, spot, held, *sign),
        Instr::Product(sign) => product(alloc, given, spot, held, *sign),
        Instr::Sum(sign) => sum(alloc, given, spot, held, *sign),
        Instr::Compare(sign) => compare(alloc, given, spot, held, *sign),
        _ => with_statements(alloc, given, instr, near, spot, held),
    }
}

// An instruction of statements.
fn with_statements(
    alloc: Global,
    given: &Segment,
    instr: &Instr,
    near: &mut usize,
    spot: &mut Spot,
    held: &mut Held,
) -> Result<(), Stop>
    requires held { IsHeld held.old }
    requires room { HasRoom given.now held.old.state }
    requires place { spot.old.pc + 1 < 2 ^ 64 }
    ensures { result ≢ Err Stop.Memory → held_does given.now instr.now spot.old held.old ≡ (moved result spot.new, held.new) }
{
    match instr {
        Instr::Unless(word, skip) => unless(alloc, given, spot, held, *word, *skip),
        Instr::When(word, skip) => when(alloc, given, spot, held, *word, *skip),
        Instr::Go(skip) => go(given, spot, held, *skip),
        Instr::Back(len) => back(given, spot, held, *len),
        Instr::Tick => tick(alloc, given, spot, held),
        Instr::Let(name) => let_local(alloc, given, spot, held, name),
        Instr::Assign(name) => assign(alloc, given, spot, held, name, near),
        Instr::Enter => enter(given, spot, held),
        Instr::Leave => leave(given, spot, held),
        Instr::Turns => begin_turns(alloc, given, spot, held),
        Instr::Next(skip) => next_turn(given, spot, held, *skip),
        Instr::Take(name) => take_turn(alloc, given, spot, held, name),
        Instr::Return => return_value(given, spot, held),
        Instr::Throw => throw(alloc, given, spot, held),
        Instr::Cleanup => cleanup(alloc, given, spot, held),
        _ => Err(Stop::Memory),
    }
}
