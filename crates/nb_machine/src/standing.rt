//! Where an evaluation stands.

ghost use Rattle.std.specs.Prelude.{◌≡◌, ◌≤◌, ◌<◌};
ghost use Rattle.std.specs.Coded.{Coded-set};
ghost use Rattle.nb_eval.specs.Evaluation.{charges as charges_of};
ghost use Rattle.nb_eval.specs.contracts.stop.Stop as stop_row;
ghost use Rattle.nb_machine.specs.Machine.{code_of};
ghost use Rattle.nb_machine.specs.Held.{IsHeld, IsPulledTo, StandsAt, hold, state_of};
ghost use Rattle.nb_machine.specs.Room.{Room};
ghost use Rattle.nb_machine.specs.Unique.{stands_prop};

use crate::instr::Instr;
use crate::point::{Held, Spot};
use nb_eval::Segment;
use nb_value::Items;

/// A point of an evaluation: the code of its segment's cell, the next instruction with the stack, and what is held. Its number
/// of charges is the one at which the evaluation stands. Where memory ran out in the midst of an instruction, the point is the
/// start again, and the same charges are made anew.
#[derive(Drop)]
pub struct Standing {
    pub(crate) segment: Segment,
    pub(crate) code: Items<Instr>,
    // For each instruction the place at which the local of its name stood last.
    pub(crate) nears: Vec<usize>,
    pub(crate) spot: Spot,
    pub(crate) held: Held,
    pub(crate) charges: u64,
    ghost is_code: { code ≡ code_of segment } by { Coded-set code-code code (code_of segment) },
    ghost is_held: { IsHeld held } by { Coded-set held-code (hold (state_of held)) held },
    ghost is_pulled: { IsPulledTo segment.pulls held },
    ghost has_room: { Room segment.pulls held },
    ghost stands: { StandsAt segment spot held } by { stands_prop stop_row.the_row.coded held-code segment spot held },
    ghost made: { held.state.charges ≤ charges },
    ghost to_make: { charges ≤ charges_of segment },
    ghost few: { charges < 0x8000_0000_0000_0000 },
}
