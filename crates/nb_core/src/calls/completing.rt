ghost use Rattle.std.specs.Prelude.{◌≡◌, ◌<◌, ◌≤◌, ◌+◌, ◌^◌, true, length, IfOk, IfErr, IsTrue, ◌↔◌};
ghost use Rattle.nb_eval.specs.Work.{IsOf};
ghost use Rattle.nb_sheet.specs.Lists.{from_option};
ghost use Rattle.nb_history.specs.History.{standing, IsClosedHistory};
ghost use Rattle.nb_history.specs.Reading.{Start};
ghost use Rattle.nb_history.specs.Log.{after};
ghost use Rattle.nb_history.specs.Rules.{ready as ready_of, next};
ghost use Rattle.nb_runs.specs.Starts.{start_in};
ghost use Rattle.nb_closing.specs.Plan.{Plans};
ghost use Rattle.nb_closing.specs.Sites.{IsScene};
ghost use Rattle.nb_closing.specs.Ties.{all_ties};
ghost use Rattle.nb_work.specs.Work.{work_of};
ghost use Rattle.nb_core.specs.Core.{Gains, Places};
ghost use Rattle.nb_core.specs.Sites.{is_outcome, stopped_site, stopped_at};

use crate::calls::Core;
use crate::machine::Machine;
use crate::placed::Placed;
use nb_closing::{Closer, Moment, Site, Step, sites};
use nb_eval::{WorkDone, is_work_of};
use nb_log::Entry;
use nb_runs::Started;
use nb_runs::starts::start_at;
use nb_work::{entry_of, notice_of};
use std::alloc::{AllocError, Global};
use std::mem::drop;

impl Core {
    /// Takes what was done at a start of a variable: its next entry, and then what leaves and starts. Where it isn't what is to
    /// be done now, nothing changes. All memory is taken first: where it runs out, nothing has changed and the work comes back.
    ///
    /// It evaluates nothing, and costs what `segment` does, a copy of the outcome, and what closes.
    pub fn complete(
        &mut self,
        var: u32,
        start: u64,
        done: WorkDone,
    ) -> Result<Placed, (WorkDone, AllocError)>
        ensures ok { IfOk result (λ placed. Places self.old self.new var start done placed) }
        ensures err { IfErr result (λ refused. (refused.0 ≡ done) × (self.new ≡ self.old)) }
    {
        let now = self.start(var);
        if now != start || !self.is_ready(var) {
            drop(done);
            return Ok(Placed::Stale { held: start, now });
        }
        match self.is_work(var, &done) {
            Ok(true) => match self.place(var, done) {
                Ok(place) => Ok(Placed::Shown(place)),
                Err(refused) => Err(refused),
            },
            Ok(false) => {
                drop(done);
                Ok(Placed::Stale { held: start, now })
            }
            Err(refused) => Err((done, refused)),
        }
    }

    /// Whether this was done of what is to be done for a ready variable.
    fn is_work(&self, var: u32, done: &WorkDone) -> Result<bool, AllocError>
        requires { ready_of (standing self.now) var ≡ true }
        ensures { IfOk result (λ same. IsTrue same ↔ IsOf (work_of (standing self.now) var) done.now) }
    {
        let work = self.segment(var)?;
        Ok(is_work_of(&work, done))
    }

    /// Adds the next entry of a ready variable whose work was done, and what leaves and starts then. This is the entry's place.
    fn place(&mut self, var: u32, done: WorkDone) -> Result<u64, (WorkDone, AllocError)>
        requires ready { ready_of (standing self.old) var ≡ true }
        requires work { IsOf (work_of (standing self.old) var) done }
        ensures ok { IfOk result (λ place. (place ≡ length self.old.log + 1) × Gains self.old (next (standing self.old) var) self.new) }
        ensures err { IfErr result (λ refused. (refused.0 ≡ done) × (self.new ≡ self.old)) }
    {
        let place = self.machine.len() + 1;
        match prepare(self.alloc, &mut self.machine, &mut self.closer, var, &done) {
            Ok((entry, steps)) => {
                let notice = notice_of(self.machine.sheet(), self.machine.starts(), var, done);
                self.machine.enter(var, entry, notice);
                self.machine.commit(steps);
                Ok(place)
            }
            Err(refused) => Err((done, refused)),
        }
    }
}

/// The next entry of a ready variable whose work was done, and the steps by which the log closes after it. There is room then
/// for all of them. It fails only without memory.
fn prepare(
    alloc: Global,
    machine: &mut Machine,
    closer: &mut Closer,
    var: u32,
    done: &WorkDone,
) -> Result<(Entry, Vec<Step>), AllocError>
    requires closed { IsClosedHistory machine.old.history }
    requires ties { closer.old ≡ all_ties (standing machine.old.history).sheet }
    requires ready { ready_of (standing machine.old.history) var ≡ true }
    requires work { IsOf (work_of (standing machine.old.history) var) done.now }
    ensures entry { IfOk result (λ p. p.0 ≡ next (standing machine.old.history) var) }
    ensures plans { IfOk result (λ p. Plans (after (standing machine.old.history) (next (standing machine.old.history) var)) p.1.items) }
    ensures room { IfOk result (λ p. length p.1.items + 1 ≤ machine.new.room) }
    ensures history { machine.new.history ≡ machine.old.history }
    ensures closer { closer.new ≡ closer.old }
{
    let ticket = machine.tickets().len() as u64 + 1;
    let entry = entry_of(alloc, machine.sheet(), machine.starts(), var, ticket, done)?;
    let steps = steps_after(alloc, machine, closer, var, &entry)?;
    machine.reserve(steps.len() + 1)?;
    Ok((entry, steps))
}

/// The steps by which the log closes after the next entry of a ready variable: none after one of its first pull. It fails only
/// without memory.
fn steps_after(
    alloc: Global,
    machine: &Machine,
    closer: &mut Closer,
    var: u32,
    entry: &Entry,
) -> Result<Vec<Step>, AllocError>
    requires closed { IsClosedHistory machine.now.history }
    requires ties { closer.old ≡ all_ties (standing machine.now.history).sheet }
    requires ready { ready_of (standing machine.now.history) var ≡ true }
    requires next { entry.now ≡ next (standing machine.now.history) var }
    ensures plans { IfOk result (λ steps. Plans (after (standing machine.now.history) entry.now) steps.items) }
    ensures same { closer.new ≡ closer.old }
{
    if is_first_pull(machine.starts(), var) {
        return Ok(Vec::new(alloc));
    }
    let moment = moment_after(alloc, machine, var, entry)?;
    let steps = closer.plan(machine.sheet(), machine.starts(), &moment)?;
    Ok(steps)
}

/// Whether a variable was pulled no more than by its start.
fn is_first_pull(starts: &Vec<Option<Started>>, var: u32) -> bool
    ensures { IsTrue result ↔ from_option 0 (λ (s : Start). s.pulls) (start_in starts.now.items var) ≤ 1 }
{
    match start_at(starts, var) {
        None => true,
        Some(start) => start.pulls() <= 1,
    }
}

/// What stands after the next entry of a ready variable. It fails only without memory.
fn moment_after(
    alloc: Global,
    machine: &Machine,
    var: u32,
    entry: &Entry,
) -> Result<Moment, AllocError>
    requires ready { ready_of (standing machine.now.history) var ≡ true }
    requires next { entry.now ≡ next (standing machine.now.history) var }
    ensures scene { IfOk result (λ moment. IsScene (after (standing machine.now.history) entry.now) (standing machine.now.history).sheet (standing machine.now.history).starts moment) }
    ensures low { IfOk result (λ moment. moment.place + 2048 < 2 ^ 64) }
{
    let place = machine.len() + 1;
    let mut sites = sites(alloc, machine.starts())?;
    stop_at(&mut sites, var, shows_outcome(entry), place);
    Ok(Moment {
        sites,
        disposed: machine.is_disposed(),
        place: place + 1,
    })
}

/// Whether an entry shows an outcome.
fn shows_outcome(entry: &Entry) -> bool
    ensures { result ≡ is_outcome entry.now }
{
    match entry {
        Entry::Fulfilled { .. } => true,
        Entry::Rejected { .. } => true,
        _ => false,
    }
}

/// A start stops running at a place. An outcome of a second or later pull renews it.
fn stop(site: &mut Site, shows: bool, place: u64)
    ensures { site.new ≡ stopped_site shows place site.old }
{
    if shows && site.later {
        site.renewal = place;
    }
    site.later = false;
}

/// A variable's start stops running at a place.
fn stop_at(sites: &mut Vec<Site>, var: u32, shows: bool, place: u64)
    ensures { sites.new.items ≡ stopped_at sites.old.items var shows place }
{
    if var == 0 || var as usize > sites.len() {
        return;
    }
    stop(&mut sites[var as usize - 1], shows, place);
}
