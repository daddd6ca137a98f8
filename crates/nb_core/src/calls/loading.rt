ghost use Rattle.std.specs.Prelude.{◌≡◌, ◌+◌, true, length, IfOk, IfErr, IfSome, IsTrue, ◌↔◌, option_map};
ghost use Rattle.nb_history.specs.History.{standing};
ghost use Rattle.nb_history.specs.Log.{is_live};
ghost use Rattle.nb_core.specs.Core.{Gains, MayLoad, live_from as live_from_log, key_of};

use crate::calls::Core;
use nb_log::Entry;
use nb_runs::Ticket;
use nb_runs::tickets::{live_from, ticket_at};
use nb_value::{Answer, Text};
use std::alloc::AllocError;

/// The key of a ticket.
fn key_in(ticket: &Ticket) -> &Text
    ensures { result.now ≡ ticket.now.key }
{
    &ticket.key
}

impl Core {
    /// The least live ticket that isn't below a number, with its key. It takes no memory, and costs a look at each ticket.
    pub fn live_ticket(&self, at_least: u64) -> Option<(u64, &Text)>
        ensures number { option_map (λ p. p.0) result ≡ live_from_log (standing self.now) at_least }
        ensures key { IfSome result (λ p. p.1.now ≡ key_of (standing self.now) p.0) }
    {
        let asked = self.machine.tickets();
        let live = live_from(self.machine.starts(), asked, at_least)?;
        let ticket = ticket_at(asked, live)?;
        Some((live, key_in(ticket)))
    }

    /// Whether a loader's answer may come: nothing is ready, the notebook isn't disposed of, and the log isn't full. It takes
    /// no memory.
    pub fn loadable(&self) -> bool
        ensures { IsTrue result ↔ MayLoad (standing self.now) }
    {
        self.next_ready().is_none() && self.machine.gate().is_none()
    }

    /// Takes a loader's answer to a live ticket. This is the place of its entry. It fails only without memory; then nothing
    /// has changed, and the answer comes back.
    pub fn loaded(&mut self, ticket: u64, answer: Answer) -> Result<u64, (Answer, AllocError)>
        requires may { MayLoad (standing self.old) }
        requires live { is_live (standing self.old) ticket ≡ true }
        ensures ok { IfOk result (λ place. (place ≡ length self.old.log + 1) × Gains self.old (Entry.Loaded ticket answer) self.new) }
        ensures err { IfErr result (λ refused. (refused.0 ≡ answer) × (self.new ≡ self.old)) }
    {
        let place = self.machine.len() + 1;
        match self.machine.loaded(ticket, answer) {
            Ok(()) => Ok(place),
            Err(refused) => Err(refused),
        }
    }
}
