ghost use Rattle.std.specs.Prelude.{◌≡◌, ◌<◌, ◌+◌, ℕ, true, false, None, length, IfOk, IfErr};
ghost use Rattle.nb_sheet.specs.Lists.{nth};
ghost use Rattle.nb_history.specs.History.{standing};
ghost use Rattle.nb_history.specs.Log.{admit, after, is_live as is_live_in_log, ticket_refusal, NothingReady};
ghost use Rattle.nb_closing.specs.Plan.{Plans};
ghost use Rattle.nb_core.specs.Core.{Gains, RestsInTime, gate as gate_of};

use crate::calls::Core;
use nb_closing::{Moment, Step, sites};
use nb_log::{Entry, Event, Refusal, Target, refusal_of};
use nb_runs::tickets::{is_live, live_of_key, ticket_at};
use nb_sheet::Edit;
use nb_value::{Answer, Text};
use std::alloc::AllocError;
use std::mem::drop;

impl Core {
    /// Takes an event of an editor: its entry, and then what leaves and starts. This is the place of the entry. A rest may
    /// come only where nothing is ready. It fails only without memory; then nothing has changed, and the event comes back.
    ///
    /// An edit costs a walk over each cell and a look-up for each of its free names, a frame a look at each start, a
    /// settlement a look at each ticket.
    pub fn event(&mut self, editor: u8, event: Event) -> Result<u64, (Event, AllocError)>
        requires low { editor < 8 }
        requires rest { RestsInTime (standing self.old) event }
        ensures ok { IfOk result (λ place. (place ≡ length self.old.log + 1) × Gains self.old (admit (standing self.old) editor event) self.new) }
        ensures err { IfErr result (λ refused. (refused.0 ≡ event) × (self.new ≡ self.old)) }
    {
        if let Some(reason) = self.machine.gate() {
            return self.refuse(editor, reason, event);
        }
        match event {
            Event::Edit(edit) => self.edit(editor, edit),
            Event::Frame => self.frame(editor),
            Event::Settle { target, answer } => self.settle(editor, target, answer),
            Event::Rest => self.rest(editor),
            Event::Dispose => self.dispose(editor),
        }
    }

    /// Writes down that an event is refused.
    fn refuse(
        &mut self,
        editor: u8,
        reason: Refusal,
        event: Event,
    ) -> Result<u64, (Event, AllocError)>
        requires low { editor < 8 }
        requires refused { admit (standing self.old) editor event ≡ Entry.Refused editor reason event }
        ensures ok { IfOk result (λ place. (place ≡ length self.old.log + 1) × Gains self.old (admit (standing self.old) editor event) self.new) }
        ensures err { IfErr result (λ refused. (refused.0 ≡ event) × (self.new ≡ self.old)) }
    {
        let place = self.machine.len() + 1;
        if let Err(refused) = self.machine.reserve(1) {
            return Err((event, refused));
        }
        self.machine.refuse(editor, reason, event);
        Ok(place)
    }

    /// Takes an edit.
    fn edit(&mut self, editor: u8, edit: Edit) -> Result<u64, (Event, AllocError)>
        requires low { editor < 8 }
        requires gate { gate_of (standing self.old) ≡ None }
        ensures ok { IfOk result (λ place. (place ≡ length self.old.log + 1) × Gains self.old (admit (standing self.old) editor (Event.Edit edit)) self.new) }
        ensures err { IfErr result (λ refused. (refused.0 ≡ (Event.Edit edit)) × (self.new ≡ self.old)) }
    {
        if let Err(refused) = self.machine.sheet().check(&edit) {
            return self.refuse(editor, refusal_of(refused), Event::Edit(edit));
        }
        let place = self.machine.len() + 1;
        match self.machine.edit(&mut self.closer, editor, edit) {
            Ok(()) => Ok(place),
            Err((edit, refused)) => Err((Event::Edit(edit), refused)),
        }
    }

    /// Takes a frame: each generator that waits for a pull is pulled. Nothing leaves or starts by it.
    fn frame(&mut self, editor: u8) -> Result<u64, (Event, AllocError)>
        requires low { editor < 8 }
        requires gate { gate_of (standing self.old) ≡ None }
        ensures ok { IfOk result (λ place. (place ≡ length self.old.log + 1) × Gains self.old (admit (standing self.old) editor Event.Frame) self.new) }
        ensures err { IfErr result (λ refused. (refused.0 ≡ Event.Frame) × (self.new ≡ self.old)) }
    {
        let place = self.machine.len() + 1;
        if let Err(refused) = self.machine.reserve(1) {
            return Err((Event::Frame, refused));
        }
        self.machine.frame(editor);
        Ok(place)
    }

    /// Takes a rest.
    fn rest(&mut self, editor: u8) -> Result<u64, (Event, AllocError)>
        requires low { editor < 8 }
        requires gate { gate_of (standing self.old) ≡ None }
        requires rest { NothingReady (standing self.old) }
        ensures ok { IfOk result (λ place. (place ≡ length self.old.log + 1) × Gains self.old (admit (standing self.old) editor Event.Rest) self.new) }
        ensures err { IfErr result (λ refused. (refused.0 ≡ Event.Rest) × (self.new ≡ self.old)) }
    {
        let place = self.machine.len() + 1;
        if let Err(refused) = self.machine.reserve(1) {
            return Err((Event::Rest, refused));
        }
        self.machine.rest(editor);
        Ok(place)
    }

    /// Disposes of the notebook: all that is started leaves.
    fn dispose(&mut self, editor: u8) -> Result<u64, (Event, AllocError)>
        requires low { editor < 8 }
        requires gate { gate_of (standing self.old) ≡ None }
        ensures ok { IfOk result (λ place. (place ≡ length self.old.log + 1) × Gains self.old (admit (standing self.old) editor Event.Dispose) self.new) }
        ensures err { IfErr result (λ refused. (refused.0 ≡ Event.Dispose) × (self.new ≡ self.old)) }
    {
        let place = self.machine.len() + 1;
        let steps = match self.leaving_all() {
            Ok(steps) => steps,
            Err(refused) => return Err((Event::Dispose, refused)),
        };
        if let Err(refused) = self.machine.reserve(steps.len() + 1) {
            return Err((Event::Dispose, refused));
        }
        self.machine.dispose(editor);
        self.machine.commit(steps);
        Ok(place)
    }

    /// What closes once the notebook is disposed of.
    fn leaving_all(&mut self) -> Result<Vec<Step>, AllocError>
        ensures plans { IfOk result (λ steps. (editor : ℕ) → Plans (after (standing self.old) (Entry.Dispose editor)) steps.items) }
        ensures same { self.new ≡ self.old }
    {
        let moment = Moment {
            sites: sites(self.alloc, self.machine.starts())?,
            disposed: true,
            place: self.machine.len() + 2,
        };
        let steps = self
            .closer
            .plan(self.machine.sheet(), self.machine.starts(), &moment)?;
        Ok(steps)
    }

    /// Takes a settlement, by its ticket or by its key.
    fn settle(
        &mut self,
        editor: u8,
        target: Target,
        answer: Answer,
    ) -> Result<u64, (Event, AllocError)>
        requires low { editor < 8 }
        requires gate { gate_of (standing self.old) ≡ None }
        ensures ok { IfOk result (λ place. (place ≡ length self.old.log + 1) × Gains self.old (admit (standing self.old) editor (Event.Settle target answer)) self.new) }
        ensures err { IfErr result (λ refused. (refused.0 ≡ (Event.Settle target answer)) × (self.new ≡ self.old)) }
    {
        match target {
            Target::Ticket(ticket) => self.settle_ticket(editor, ticket, answer),
            Target::Key(key) => self.settle_key(editor, key, answer),
        }
    }

    /// Takes a settlement by a ticket. Where its start isn't the present one any more, it comes late.
    fn settle_ticket(
        &mut self,
        editor: u8,
        ticket: u64,
        answer: Answer,
    ) -> Result<u64, (Event, AllocError)>
        requires low { editor < 8 }
        requires gate { gate_of (standing self.old) ≡ None }
        ensures ok { IfOk result (λ place. (place ≡ length self.old.log + 1) × Gains self.old (admit (standing self.old) editor (Event.Settle (Target.Ticket ticket) answer)) self.new) }
        ensures err { IfErr result (λ refused. (refused.0 ≡ (Event.Settle (Target.Ticket ticket) answer)) × (self.new ≡ self.old)) }
    {
        if let Some(reason) = self.ticket_refusal(ticket) {
            let target = Target::Ticket(ticket);
            return self.refuse(editor, reason, Event::Settle { target, answer });
        }
        if is_live(self.machine.starts(), self.machine.tickets(), ticket) {
            self.settle_live(editor, ticket, answer)
        } else {
            self.settle_late(editor, ticket, answer)
        }
    }

    /// Why a ticket can't be settled, if it can't.
    fn ticket_refusal(&self, ticket: u64) -> Option<Refusal>
        ensures { result ≡ ticket_refusal (nth (standing self.now).tickets ticket) }
    {
        match ticket_at(self.machine.tickets(), ticket) {
            None => Some(Refusal::NoTicket),
            Some(asked) if asked.settled => Some(Refusal::AlreadySettled),
            Some(_) => None,
        }
    }

    /// Takes a settlement by a live ticket.
    fn settle_live(
        &mut self,
        editor: u8,
        ticket: u64,
        answer: Answer,
    ) -> Result<u64, (Event, AllocError)>
        requires low { editor < 8 }
        requires gate { gate_of (standing self.old) ≡ None }
        requires there { ticket_refusal (nth (standing self.old).tickets ticket) ≡ None }
        requires live { is_live_in_log (standing self.old) ticket ≡ true }
        ensures ok { IfOk result (λ place. (place ≡ length self.old.log + 1) × Gains self.old (admit (standing self.old) editor (Event.Settle (Target.Ticket ticket) answer)) self.new) }
        ensures err { IfErr result (λ refused. (refused.0 ≡ (Event.Settle (Target.Ticket ticket) answer)) × (self.new ≡ self.old)) }
    {
        let place = self.machine.len() + 1;
        match self.machine.settled(editor, ticket, answer) {
            Ok(()) => Ok(place),
            Err((answer, refused)) => {
                let target = Target::Ticket(ticket);
                Err((Event::Settle { target, answer }, refused))
            }
        }
    }

    /// Takes a settlement by a ticket that isn't live any more. Its answer is let go of.
    fn settle_late(
        &mut self,
        editor: u8,
        ticket: u64,
        answer: Answer,
    ) -> Result<u64, (Event, AllocError)>
        requires low { editor < 8 }
        requires gate { gate_of (standing self.old) ≡ None }
        requires there { ticket_refusal (nth (standing self.old).tickets ticket) ≡ None }
        requires late { is_live_in_log (standing self.old) ticket ≡ false }
        ensures ok { IfOk result (λ place. (place ≡ length self.old.log + 1) × Gains self.old (admit (standing self.old) editor (Event.Settle (Target.Ticket ticket) answer)) self.new) }
        ensures err { IfErr result (λ refused. (refused.0 ≡ (Event.Settle (Target.Ticket ticket) answer)) × (self.new ≡ self.old)) }
    {
        let place = self.machine.len() + 1;
        if let Err(refused) = self.machine.reserve(1) {
            let target = Target::Ticket(ticket);
            return Err((Event::Settle { target, answer }, refused));
        }
        drop(answer);
        self.machine.late(editor, ticket);
        Ok(place)
    }

    /// Takes a settlement by a key: that of the least live ticket with this key.
    fn settle_key(
        &mut self,
        editor: u8,
        key: Text,
        answer: Answer,
    ) -> Result<u64, (Event, AllocError)>
        requires low { editor < 8 }
        requires gate { gate_of (standing self.old) ≡ None }
        ensures ok { IfOk result (λ place. (place ≡ length self.old.log + 1) × Gains self.old (admit (standing self.old) editor (Event.Settle (Target.Key key) answer)) self.new) }
        ensures err { IfErr result (λ refused. (refused.0 ≡ (Event.Settle (Target.Key key) answer)) × (self.new ≡ self.old)) }
    {
        let place = self.machine.len() + 1;
        match live_of_key(self.machine.starts(), self.machine.tickets(), &key) {
            None => {
                let target = Target::Key(key);
                self.refuse(editor, Refusal::NoAsk, Event::Settle { target, answer })
            }
            Some(ticket) => match self.machine.settled(editor, ticket, answer) {
                Ok(()) => Ok(place),
                Err((answer, refused)) => {
                    let target = Target::Key(key);
                    Err((Event::Settle { target, answer }, refused))
                }
            },
        }
    }
}
