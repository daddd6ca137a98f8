//! How an evaluation goes on from where it stands.

ghost use Rattle.std.specs.Prelude.{◌≡◌, ◌≢◌, ◌≤◌, ◌<◌, ◌+◌, Some, None, true, Ok, Err, OnOk, OnErr, MatchResult, slice_get, IfOk, ◌-◌, ◌^◌};
ghost use Rattle.std.specs.Option.{option_copied};
ghost use Rattle.nb_eval.specs.Evaluation.{charges as charges_of, segment_end};
ghost use Rattle.nb_machine.specs.Machine.{code_of};
ghost use Rattle.nb_machine.specs.Suspended.{is_pending, owes};
ghost use Rattle.nb_machine.specs.Held.{IsHeld, IsPulledTo, StandsAt, end_kept, goes_on, hold, left_by, state_of, top_value};
ghost use Rattle.nb_machine.specs.Segments.{with_answer, with_pull};
ghost use Rattle.nb_machine.specs.Standing.{charges_after, is_due, left_of};

use crate::compile::compile;
use crate::exec::exec;
use crate::instr::{Instr, Slot};
use crate::pile::Pile;
use crate::point::{Held, Spot};
use crate::standing::Standing;
use nb_eval::replay::ending_of;
use nb_eval::stop::Stop;
use nb_eval::{Ending, RunEnd, Segment};
use nb_syntax::is_generator;
use nb_value::{Answer, Items, Tree, Value};
use std::alloc::{AllocError, Global};
use std::mem::{drop, replace};

impl Standing {
    /// The start of an evaluation, in time linear in the cell. Where memory ran out, the segment comes back.
    pub fn new(alloc: Global, segment: Segment) -> Result<Standing, (Segment, AllocError)>
        ensures { MatchResult result (λ s. (s.segment ≡ segment) × (s.charges ≡ 0)) (λ e. e.0 ≡ segment) }
    {
        match code_of(alloc, &segment) {
            Ok((code, nears)) => Ok(Standing {
                segment,
                code,
                nears,
                spot: Spot::new(alloc),
                held: Held::new(alloc),
                charges: 0,
            }),
            Err(refused) => Err((segment, refused)),
        }
    }

    /// What is evaluated. It takes no memory.
    pub fn segment(&self) -> &Segment
        ensures { result.now ≡ self.now.segment }
    {
        &self.segment
    }

    /// The number of charges at which it stands. It takes no memory.
    pub fn charges(&self) -> u64
        ensures value { result ≡ self.now.charges }
        ensures bound { result ≤ charges_of self.now.segment }
    {
        self.charges
    }

    /// The segment alone. It takes no memory.
    pub fn into_segment(self) -> Segment
        ensures { result ≡ self.segment }
    {
        let Standing {
            segment,
            code,
            nears,
            spot,
            held,
            ..
        } = self;
        drop((code, nears, spot, held));
        segment
    }

    /// The segment, and what stands at a copy of it. It takes no memory.
    pub fn split(self, copy: Segment) -> (Segment, Standing)
        requires { copy ≡ self.segment }
        ensures segment { result.0 ≡ self.segment }
        ensures copy { result.1.segment ≡ self.segment }
        ensures charges { result.1.charges ≡ self.charges }
    {
        let mut standing = self;
        let segment = replace(&mut standing.segment, copy);
        (segment, standing)
    }

    /// Adds an answer to the segment, in time linear in the answer. It fails only without memory, and then nothing has
    /// changed.
    pub fn add_answer(&mut self, alloc: Global, answer: &Answer) -> Result<(), AllocError>
        ensures ok { OnOk result (self.new.segment ≡ with_answer self.old.segment answer.now) }
        ensures charges { self.new.charges ≡ self.old.charges }
        ensures err { OnErr result (self.new ≡ self.old) }
    {
        self.segment.answers.push(answer.copy(alloc)?)?;
        Ok(())
    }

    /// Adds a pull to the segment. It takes no memory.
    pub fn add_pull(&mut self)
        requires { self.old.segment.pulls + 1 < 2 ^ 32 }
        ensures segment { self.new.segment ≡ with_pull self.old.segment }
        ensures charges { self.new.charges ≡ self.old.charges }
    {
        self.segment.pulls += 1;
    }

    /// Whether a charge is next by which it would stand at more than this number of charges. It takes no memory.
    pub fn is_due(&self, charges: u64) -> bool
        ensures { result ≡ is_due self.now charges }
    {
        is_pending(self.code.as_slice(), &self.spot) && self.held.state.charges >= charges
    }

    /// Makes one instruction, and answers what the segment gives where that is the ending. Where the evaluation can be taken
    /// up again there, it stands before that instruction. Where memory runs out, it has the number of charges that it had.
    pub fn turn(&mut self, alloc: Global) -> Result<Option<RunEnd>, AllocError>
        ensures segment { self.new.segment ≡ self.old.segment }
        ensures charges { OnOk result (self.new.charges ≡ charges_after self.old) }
        ensures falls { result ≡ Ok None → left_of self.new < left_of self.old }
        ensures ends { (e : RunEnd) → result ≡ Ok (Some e) → (e ≡ segment_end self.new.segment) × (self.new.charges ≡ charges_of self.new.segment) }
        ensures memory { OnErr result (self.new.charges ≡ self.old.charges) }
    {
        // The pulls bound the charges.
        let _pulls = self.segment.pulls;
        let outcome = exec(
            alloc,
            &self.segment,
            self.code.as_slice(),
            self.nears.as_mut_slice(),
            &mut self.spot,
            &mut self.held,
        );
        let charges = self.charges.max(self.held.state.charges);
        match outcome {
            Ok(()) => {
                self.charges = charges;
                Ok(None)
            }
            Err(stop) if goes_on(&stop) => {
                let end = end_at(alloc, &self.segment, &self.spot, &self.held, stop)?;
                self.charges = charges;
                Ok(Some(end))
            }
            Err(stop) => {
                let end = end_at(alloc, &self.segment, &self.spot, &self.held, stop);
                self.spot = Spot::new(alloc);
                self.held = Held::new(alloc);
                let end = end?;
                self.charges = charges;
                Ok(Some(end))
            }
        }
    }
}

// The code of a segment's cell, and no place yet for each instruction.
fn code_of(alloc: Global, segment: &Segment) -> Result<(Items<Instr>, Vec<usize>), AllocError>
    ensures { IfOk result (λ parts. parts.0 ≡ code_of segment.now) }
{
    let code = compile(alloc, &segment.cell.body)?;
    let mut nears = Vec::new(alloc);
    nears.resize_with(code.len(), || 0)?;
    Ok((code, nears))
}

// Whether a charge is next.
fn is_pending(code: &[Instr], spot: &Spot) -> bool
    ensures { result ≡ is_pending (slice_get code.now spot.now.pc) spot.now.slots }
{
    match code.get(spot.pc) {
        Some(Instr::Tick) => true,
        Some(Instr::Charge) => owes(&spot.slots),
        _ => false,
    }
}

// Whether what is on top is to be charged.
#[tactic(auto, using(crate::proofs::Owed::owes_top))]
fn owes(slots: &Pile<Slot>) -> bool
    ensures { result ≡ owes slots.now }
{
    match slots.top() {
        Some(Slot::Value(_)) => true,
        Some(Slot::Unpaid) => true,
        _ => false,
    }
}

// Whether an evaluation can be taken up again after this stop.
fn goes_on(stop: &Stop) -> bool
    ensures { result ≡ goes_on stop.now }
{
    match stop {
        Stop::Needs(_) | Stop::Paused => true,
        _ => false,
    }
}

// What is kept of a stop, by copies of what is held.
fn end_at(
    alloc: Global,
    segment: &Segment,
    spot: &Spot,
    held: &Held,
    stop: Stop,
) -> Result<RunEnd, AllocError>
    requires { stop ≡ Stop.Paused → held.now.made ≤ segment.now.pulls - 1 }
    ensures { IfOk result (λ e. (e ≡ end_kept segment.now stop (left_by stop spot.now held.now)) × (stop ≢ Stop.Memory)) }
{
    // The pulls bound the yields.
    let _pulls = segment.pulls;
    let (made, last) = yields_at(alloc, spot, held, &stop)?;
    Ok(RunEnd {
        made,
        last,
        cleanups: held.state.cleanups.copy(alloc)?,
        ending: ending_of(alloc, is_generator(&segment.cell), Err(stop))?,
    })
}

// The number of the yields and the last of them, by a copy, at a stop.
fn yields_at(
    alloc: Global,
    spot: &Spot,
    held: &Held,
    stop: &Stop,
) -> Result<(u32, Option<Value>), AllocError>
    requires { stop.now ≡ Stop.Paused → held.now.made + 1 < 2 ^ 32 }
    ensures { IfOk result (λ y. (y.0 ≡ (left_by stop.now spot.now held.now).made) × (y.1 ≡ (left_by stop.now spot.now held.now).last)) }
{
    match stop {
        Stop::Paused => Ok((held.made + 1, copy_of(alloc, top_value(&spot.slots))?)),
        _ => Ok((held.made, held.last.copy(alloc)?)),
    }
}

// The value on top.
#[tactic(auto, using(crate::proofs::Owed::value_top))]
fn top_value(slots: &Pile<Slot>) -> Option<&Value>
    ensures { option_copied result ≡ top_value slots.now }
{
    match slots.top() {
        Some(Slot::Value(value)) => Some(value),
        _ => None,
    }
}

fn copy_of(alloc: Global, value: Option<&Value>) -> Result<Option<Value>, AllocError>
    ensures { IfOk result (λ copy. copy ≡ option_copied value.entry) }
{
    match value {
        Some(value) => Ok(Some(value.copy(alloc)?)),
        None => Ok(None),
    }
}
