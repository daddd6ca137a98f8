//! What is left of an evaluation at its ending.

ghost use Rattle.std.specs.Prelude.{◌≡◌, ◌<◌, ◌^◌, ◌+◌, true, MatchResult};
ghost use Rattle.nb_machine.specs.Parked.{GoesOnWith, GoesOnPulled, is_over, needs_answer, pulls_of, waits_for_pull};

use crate::machine::Machine;
use crate::standing::Standing;
use nb_value::Answer;
use std::alloc::{AllocError, Global};
use std::mem::drop;

/// What is left of an evaluation at its ending: nothing, or where it can be taken up again.
#[derive(Drop)]
pub enum Parked {
    /// It is over.
    Over,
    /// It needs an answer.
    Needs(Standing),
    /// It has yielded, and waits for a pull.
    Paused(Standing),
}

impl Parked {
    /// Whether it needs an answer. It takes no memory.
    pub fn needs_answer(&self) -> bool
        ensures { result ≡ needs_answer self.now }
    {
        match self {
            Parked::Needs(_) => true,
            _ => false,
        }
    }

    /// Whether it waits for a pull. It takes no memory.
    pub fn waits_for_pull(&self) -> bool
        ensures { result ≡ waits_for_pull self.now }
    {
        match self {
            Parked::Paused(_) => true,
            _ => false,
        }
    }

    /// Whether it is over. It takes no memory.
    pub fn is_over(&self) -> bool
        ensures { result ≡ is_over self.now }
    {
        match self {
            Parked::Over => true,
            _ => false,
        }
    }

    /// The pulls that it has had, none where it is over. It takes no memory.
    pub fn pulls(&self) -> u32
        ensures { result ≡ pulls_of self.now }
    {
        match self {
            Parked::Needs(standing) => standing.segment().pulls,
            Parked::Paused(standing) => standing.segment().pulls,
            Parked::Over => 0,
        }
    }

    /// The machine that goes on as if the answer had been there, at the number of charges that were made. It takes time linear
    /// in the answer. Where memory ran out, both come back.
    pub fn resume(
        self,
        alloc: Global,
        answer: Answer,
    ) -> Result<Machine, (Parked, Answer, AllocError)>
        requires { needs_answer self ≡ true }
        ensures { MatchResult result (λ m. GoesOnWith answer self m) (λ e. (e.0 ≡ self) × (e.1 ≡ answer)) }
    {
        match self {
            Parked::Needs(mut standing) => match standing.add_answer(alloc, &answer) {
                Ok(()) => {
                    drop(answer);
                    Ok(Machine::at(standing))
                }
                Err(refused) => Err((Parked::Needs(standing), answer, refused)),
            },
            _ => unreachable!(),
        }
    }

    /// The machine that goes on after the yield, at the number of charges that were made. It takes no memory.
    pub fn pull(self) -> Machine
        requires paused { waits_for_pull self ≡ true }
        requires few { pulls_of self + 1 < 2 ^ 32 }
        ensures { GoesOnPulled self result }
    {
        match self {
            Parked::Paused(mut standing) => {
                standing.add_pull();
                Machine::at(standing)
            }
            _ => unreachable!(),
        }
    }
}
