//! The steps of a machine.

ghost use Rattle.std.specs.Prelude.{◌≡◌, ◌≢◌, ◌≤◌, ◌<◌, ◌+◌, Some, None, true, Ok, Err, ◌⊎◌, OnOk, OnErr, IfOk, MatchResult};
ghost use Rattle.nb_eval.specs.Evaluation.{charges as charges_of, segment_end};
ghost use Rattle.nb_machine.specs.Parked.{Runs, IsLeftAt, IsLeftOf};
ghost use Rattle.nb_machine.specs.Segments.{can_go_on, copy_where};
ghost use Rattle.nb_machine.specs.Standing.{charges_after};
ghost use Rattle.nb_machine.specs.ToGo.{to_go};

use crate::ended::Ended;
use crate::machine::Machine;
use crate::parked::Parked;
use crate::standing::Standing;
use nb_eval::{Ending, Finished, RunEnd, Segment};
use nb_value::Tree;
use std::alloc::{AllocError, Global};
use std::mem::drop;

/// The machine of a segment, which has made no charge, in time linear in the cell. Where memory ran out, the segment comes
/// back.
pub fn begin(alloc: Global, segment: Segment) -> Result<Machine, (Segment, AllocError)>
    ensures { MatchResult result (λ m. Runs segment 0 m) (λ e. e.0 ≡ segment) }
{
    let standing = Standing::new(alloc, segment)?;
    Ok(Machine::at(standing))
}

impl Machine {
    /// The machine that goes on from here. It takes no memory.
    pub fn at(standing: Standing) -> Machine
        ensures standing { result.standing ≡ standing }
        ensures ended { result.ended ≡ None }
    {
        Machine {
            standing,
            ended: None,
        }
    }

    /// What is evaluated. It takes no memory.
    pub fn segment(&self) -> &Segment
        ensures { result.now ≡ self.now.standing.segment }
    {
        self.standing.segment()
    }

    /// Makes so many charges, whatever their amounts, but none past the ending, and tells whether it has come there. Where
    /// memory runs out it may be stepped on: it stands where it stood or at a later charge, though it may have to make its
    /// charges anew to come there. It takes time in proportion to what is charged.
    pub fn step(&mut self, alloc: Global, units: u32) -> Result<Option<()>, AllocError>
        requires { 1 ≤ units }
        ensures segment { self.new.standing.segment ≡ self.old.standing.segment }
        ensures done { result ≡ Ok (Some tt) → (self.new.standing.charges ≡ charges_of self.new.standing.segment) × (self.new.standing.charges ≤ self.old.standing.charges + units) × (self.new.ended ≢ None) }
        ensures more { result ≡ Ok None → (self.new.standing.charges ≡ self.old.standing.charges + units) × (self.new.standing.charges < charges_of self.new.standing.segment) × (self.new.ended ≡ None) }
        ensures memory { OnErr result ((self.old.standing.charges ≤ self.new.standing.charges) × (self.new.standing.charges ≤ self.old.standing.charges + units) × (self.new.ended ≡ None)) }
    {
        let target = self.standing.charges() + units as u64;
        'run: while self.ended.is_none() {
            if self.standing.is_due(target) {
                return Ok(None);
            }
            self.turn(alloc)?;
        }
        Ok(Some(()))
    }

    // One instruction of a machine that hasn't ended.
    fn turn(&mut self, alloc: Global) -> Result<(), AllocError>
        requires { self.old.ended ≡ None }
        ensures segment { self.new.standing.segment ≡ self.old.standing.segment }
        ensures charges { OnOk result (self.new.standing.charges ≡ charges_after self.old.standing) }
        ensures falls { OnOk result (to_go self.new < to_go self.old) }
        ensures memory { OnErr result (((self.new.standing.charges ≡ self.old.standing.charges) ⊎ (self.new.standing.charges ≡ charges_after self.old.standing)) × (self.new.ended ≡ None)) }
    {
        if let Some(end) = self.standing.turn(alloc)? {
            self.ended = Some(with_copy(alloc, self.standing.segment(), end)?);
        }
        Ok(())
    }

    /// The evaluation of the segment, and what is left of it. It takes no memory.
    pub fn finish(self) -> (Finished, Parked)
        requires { self.ended ≢ None }
        ensures segment { result.0.segment ≡ self.standing.segment }
        ensures parked { IsLeftOf self.standing.segment result.1 }
    {
        let Machine { standing, ended } = self;
        let Ended { end, copy } = ended.unwrap();
        match copy {
            Some(copy) => {
                let (segment, standing) = standing.split(copy);
                let parked = parked_at(&end.ending, standing);
                (Finished::of(segment, end), parked)
            }
            None => (Finished::of(standing.into_segment(), end), Parked::Over),
        }
    }

    /// The segment that the machine was begun with, with the answers and pulls that came since. It takes no memory.
    pub fn into_segment(self) -> Segment
        ensures { result ≡ self.standing.segment }
    {
        let Machine { standing, ended } = self;
        drop(ended);
        standing.into_segment()
    }
}

// An ending, with a copy of the segment where the evaluation can go on.
fn with_copy(alloc: Global, segment: &Segment, end: RunEnd) -> Result<Ended, AllocError>
    ensures { IfOk result (λ x. (x.end ≡ end) × (x.copy ≡ copy_where (can_go_on end.ending) segment.now)) }
{
    let copy = match &end.ending {
        Ending::Needs(_) | Ending::Paused => Some(segment.copy(alloc)?),
        _ => None,
    };
    Ok(Ended { end, copy })
}

// What is left at an ending after which the evaluation can go on.
fn parked_at(ending: &Ending, standing: Standing) -> Parked
    requires ending { can_go_on ending.now ≡ true }
    requires whole { standing.charges ≡ charges_of standing.segment }
    ensures { IsLeftAt standing.segment ending.now result }
{
    match ending {
        Ending::Needs(_) => Parked::Needs(standing),
        _ => Parked::Paused(standing),
    }
}
