ghost use Rattle.std.specs.Prelude.{◌≡◌, ◌<◌, true, IfOk, OnOk, OnErr};
ghost use Rattle.nb_eval.specs.Work.{IsOf};
ghost use Rattle.nb_history.specs.History.{standing, IsClosedHistory};
ghost use Rattle.nb_history.specs.Rules.{ready as ready_of, next};
ghost use Rattle.nb_history.specs.Work.{to_do};
ghost use Rattle.nb_settle.specs.Evaluations.{IsNothing};
ghost use Rattle.nb_core.specs.Core.{Gains, SettlesSoFar, Settles, RestsOnScratch};

use crate::evaluations::Evaluations;
use nb_core::Core;
use nb_eval::{Finished, Segment, Work, WorkDone, evaluate};
use nb_log::{Entry, Log};
use nb_syntax::is_plain;
use std::alloc::{AllocError, Global};
use std::mem::drop;

/// Does the work of a machine's ready variables, and keeps their suspended evaluations as long as their starts stand. What it keeps
/// saves time alone: what it shows is what evaluating from the start gives.
#[derive(Drop)]
pub struct Settler {
    alloc: Global,
    evaluations: Evaluations,
    // The number of the log's entries that were looked at.
    seen: u64,
}

impl Settler {
    /// Nothing is kept yet. It takes no memory.
    pub fn new(alloc: Global) -> Settler
        ensures kept { IsNothing result.evaluations }
        ensures seen { result.seen ≡ 0 }
    {
        Settler {
            alloc,
            evaluations: Evaluations::new(alloc),
            seen: 0,
        }
    }

    /// Does the work of what is ready, the least variable first, until nothing is. Where memory runs out, the log keeps what
    /// came before: entries of the serial history. Each notice costs one evaluation, from where the variable's last one stopped.
    pub fn settle(&mut self, core: &mut Core) -> Result<(), AllocError>
        ensures ok { OnOk result (Settles core.old core.new) }
        ensures closed { OnOk result (IsClosedHistory core.new) }
        ensures rest { OnOk result (RestsOnScratch core.new) }
        ensures err { OnErr result (SettlesSoFar core.old core.new) }
    {
        loop {
            self.keep_up(core.log());
            match core.next_ready() {
                None => return Ok(()),
                Some(var) => self.step(core, var)?,
            }
        }
    }

    // Does the work of a ready variable.
    fn step(&mut self, core: &mut Core, var: u32) -> Result<(), AllocError>
        requires closed { IsClosedHistory core.old }
        requires ready { ready_of (standing core.old) var ≡ true }
        ensures gains { OnOk result (Gains core.old (next (standing core.old) var) core.new) }
        ensures fewer { OnOk result (to_do (standing core.new) < to_do (standing core.old)) }
        ensures err { OnErr result (core.new ≡ core.old) }
    {
        let start = core.start(var);
        let work = core.segment(var)?;
        let done = self.done_of(var, work)?;
        match core.complete(var, start, done) {
            Ok(_) => Ok(()),
            Err((done, refused)) => {
                drop(done);
                Err(refused)
            }
        }
    }

    // Does the work of a variable: one evaluation, where there is one.
    fn done_of(&mut self, var: u32, work: Work) -> Result<WorkDone, AllocError>
        ensures { IfOk result (λ done. IsOf work done) }
    {
        match work {
            Work::Direct(outcome) => Ok(WorkDone::Direct(outcome)),
            Work::Run(segment) => Ok(WorkDone::Ran(self.evaluate(var, segment)?)),
        }
    }

    // The evaluation of a variable's segment. A plain cell's is made at once, since it never stops before its end.
    fn evaluate(&mut self, var: u32, segment: Segment) -> Result<Finished, AllocError>
        ensures { IfOk result (λ f. f.segment ≡ segment) }
    {
        if is_plain(&segment.cell) {
            return match evaluate(self.alloc, segment) {
                Ok(finished) => Ok(finished),
                Err((segment, refused)) => {
                    drop(segment);
                    Err(refused)
                }
            };
        }
        self.evaluations.evaluate(var, segment)
    }

    // Forgets the evaluations of the starts that came to an end since it looked at the log.
    fn keep_up(&mut self, log: &Log) {
        while self.seen < log.len() {
            self.seen += 1;
            match log.get(self.seen) {
                Some(Entry::Left { var, .. }) | Some(Entry::Pending { var, .. }) => {
                    self.evaluations.forget(*var)
                }
                _ => {}
            }
        }
    }
}

/// Does the work of what is ready, as a new `Settler` does it, which keeps nothing for the next call.
pub fn settle(alloc: Global, core: &mut Core) -> Result<(), AllocError>
    ensures ok { OnOk result (Settles core.old core.new) }
    ensures closed { OnOk result (IsClosedHistory core.new) }
    ensures rest { OnOk result (RestsOnScratch core.new) }
    ensures err { OnErr result (SettlesSoFar core.old core.new) }
{
    let mut settler = Settler::new(alloc);
    settler.settle(core)
}
