ghost use Rattle.std.specs.Prelude.{◌≡◌, ◌<◌, OnOk, OnErr, IfErr};
ghost use Rattle.nb_sheet.specs.Lists.{put};
ghost use Rattle.nb_history.specs.Log.{answering};
ghost use Rattle.nb_history.specs.History.{plus};
ghost use Rattle.nb_runs.specs.Starts.{change_in, start_in};

use crate::machine::Machine;
use nb_log::{Entry, Log};
use nb_runs::Started;
use nb_runs::starts::{answer_in, put_start, take};
use nb_runs::tickets::{settle, ticket_var};
use nb_value::{Answer, Tree};
use std::alloc::{AllocError, Global};

/// Gives a variable's start the answer, and runs it on. Where memory runs out, nothing has changed.
fn answer_at(starts: &mut Vec<Option<Started>>, var: u32, answer: Answer) -> Result<(), AllocError>
    ensures ok { OnOk result (starts.new.items ≡ put starts.old.items var (change_in (start_in starts.old.items var) (answering answer))) }
    ensures err { OnErr result (starts.new.items ≡ starts.old.items) }
{
    let mut start = take(starts, var);
    let answered = answer_in(&mut start, answer);
    put_start(starts, var, start);
    answered
}

/// Makes room for an entry, and gives a variable's start a copy of the answer. Where memory runs out, nothing has changed.
fn answer_copied(
    alloc: Global,
    log: &mut Log,
    starts: &mut Vec<Option<Started>>,
    var: u32,
    answer: &Answer,
) -> Result<(), AllocError>
    ensures ok { OnOk result (starts.new.items ≡ put starts.old.items var (change_in (start_in starts.old.items var) (answering answer.now))) }
    ensures err { OnErr result (starts.new.items ≡ starts.old.items) }
    ensures entries { log.new.entries ≡ log.old.entries }
    ensures room { OnOk result (0 < log.new.room) }
{
    log.reserve(1)?;
    let copy = answer.copy(alloc)?;
    answer_at(starts, var, copy)?;
    Ok(())
}

impl Machine {
    /// A ticket is settled by an editor. It fails only without memory, and then the answer comes back. It copies the answer.
    pub fn settled(
        &mut self,
        editor: u8,
        ticket: u64,
        answer: Answer,
    ) -> Result<(), (Answer, AllocError)>
        ensures ok { OnOk result (self.new.history ≡ plus self.old.history (Entry.Settled editor ticket answer)) }
        ensures err { IfErr result (λ refused. (refused.0 ≡ answer) × (self.new.history ≡ self.old.history)) }
    {
        let var = ticket_var(&self.tickets, ticket);
        if let Err(refused) = answer_copied(
            self.alloc,
            &mut self.log,
            &mut self.starts,
            var,
            &answer,
        ) {
            return Err((answer, refused));
        }
        settle(&mut self.tickets, ticket);
        self.log.push(Entry::Settled {
            editor,
            ticket,
            answer,
        });
        Ok(())
    }

    /// A loader answers a ticket. It fails only without memory, and then the answer comes back. It copies the answer.
    pub fn loaded(&mut self, ticket: u64, answer: Answer) -> Result<(), (Answer, AllocError)>
        ensures ok { OnOk result (self.new.history ≡ plus self.old.history (Entry.Loaded ticket answer)) }
        ensures err { IfErr result (λ refused. (refused.0 ≡ answer) × (self.new.history ≡ self.old.history)) }
    {
        let var = ticket_var(&self.tickets, ticket);
        if let Err(refused) = answer_copied(
            self.alloc,
            &mut self.log,
            &mut self.starts,
            var,
            &answer,
        ) {
            return Err((answer, refused));
        }
        settle(&mut self.tickets, ticket);
        self.log.push(Entry::Loaded { ticket, answer });
        Ok(())
    }
}
