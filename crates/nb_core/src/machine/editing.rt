ghost use Rattle.std.specs.Prelude.{◌≡◌, ◌≤◌, ◌<◌, ◌+◌, ◌-◌, ◌++◌, None, length, replicate, vec_len, vec_capacity, IfOk, IfErr, OnOk, OnErr};
ghost use Rattle.nb_sheet.specs.Sheet.{refusal, edited_sheet};
ghost use Rattle.nb_history.specs.History.{standing, plus};
ghost use Rattle.nb_history.specs.Reading.{Reading};
ghost use Rattle.nb_closing.specs.Ties.{all_ties};
ghost use Rattle.nb_closing.specs.Plan.{Plans};
ghost use Rattle.nb_core.specs.Core.{Gains};
ghost use Rattle.nb_core.specs.Stands.{room_of, HasParts};

use crate::machine::Machine;
use crate::machine::room::make_room;
use nb_closing::{Closer, Moment, Step, Ties, sites};
use nb_log::{Entry, Log};
use nb_runs::{Started, Ticket};
use nb_sheet::{Edit, Sheet};
use std::alloc::{AllocError, Global};

/// Does an edit, and takes over the ties of the new sheet. These are the old ones. Where memory runs out, nothing has changed;
/// else an undo gives the old sheet.
fn change(
    alloc: Global,
    closer: &mut Closer,
    sheet: &mut Sheet,
    edit: &Edit,
    place: u64,
) -> Result<Vec<Ties>, AllocError>
    requires admitted { refusal sheet.old.sheet edit.now ≡ None }
    ensures sheet { OnOk result (sheet.new.sheet ≡ edited_sheet sheet.old.sheet edit.now place) }
    ensures marked { OnOk result (sheet.new.marked ≡ sheet.old.sheet) }
    ensures ties { OnOk result (closer.new ≡ all_ties sheet.new.sheet) }
    ensures old { IfOk result (λ old. old.items ≡ closer.old) }
    ensures err { OnErr result ((sheet.new.sheet ≡ sheet.old.sheet) × (closer.new ≡ closer.old)) }
{
    sheet.mark();
    nb_derive::apply(alloc, sheet, edit, place)?;
    match closer.retie(sheet) {
        Ok(old) => Ok(old),
        Err(refused) => {
            sheet.undo();
            Err(refused)
        }
    }
}

/// New variables are idle. There is room for so many.
fn pad(starts: &mut Vec<Option<Started>>, more: usize)
    requires { vec_len starts.old + more ≤ vec_capacity starts.old }
    ensures { starts.new.items ≡ starts.old.items ++ replicate more None }
{
    for _ in 0..more {
        starts.push_reserved(None);
    }
}

/// New variables get their place among the starts, with room for one entry more. Where memory runs out, nothing has changed.
fn add_places(
    sheet: &Sheet,
    starts: &mut Vec<Option<Started>>,
    log: &mut Log,
) -> Result<(), AllocError>
    ensures starts { OnOk result (starts.new.items ≡ starts.old.items ++ replicate (length sheet.now.sheet.rows - length starts.old.items) None) }
    ensures room { OnOk result (0 < log.new.room) }
    ensures entries { log.new.entries ≡ log.old.entries }
    ensures err { OnErr result (starts.new.items ≡ starts.old.items) }
{
    let more = sheet.rows().len().saturating_sub(starts.len());
    starts.reserve(more)?;
    log.reserve(1)?;
    pad(starts, more);
    Ok(())
}

/// Does an edit, whose entry is the log's next. New variables get their place among the starts, and there is room for the
/// entry. Where memory runs out, nothing has changed.
fn change_alone(
    alloc: Global,
    sheet: &mut Sheet,
    starts: &mut Vec<Option<Started>>,
    log: &mut Log,
    edit: &Edit,
) -> Result<(), AllocError>
    requires admitted { refusal sheet.old.sheet edit.now ≡ None }
    ensures sheet { OnOk result (sheet.new.sheet ≡ edited_sheet sheet.old.sheet edit.now (length log.old.entries + 1)) }
    ensures starts { OnOk result (starts.new.items ≡ starts.old.items ++ replicate (length sheet.new.sheet.rows - length starts.old.items) None) }
    ensures room { OnOk result (0 < log.new.room) }
    ensures entries { log.new.entries ≡ log.old.entries }
    ensures err { OnErr result ((sheet.new.sheet ≡ sheet.old.sheet) × (starts.new.items ≡ starts.old.items)) }
{
    sheet.mark();
    nb_derive::apply(alloc, sheet, edit, log.len() + 1)?;
    match add_places(sheet, starts, log) {
        Ok(()) => Ok(()),
        Err(refused) => {
            sheet.undo();
            Err(refused)
        }
    }
}

/// The steps of what closes after an edit that made this sheet, with room for them and the edit's entry. New variables get
/// their place among the starts. Where memory runs out, nothing has changed.
fn prepare(
    alloc: Global,
    closer: &mut Closer,
    sheet: &Sheet,
    starts: &mut Vec<Option<Started>>,
    tickets: &mut Vec<Ticket>,
    log: &mut Log,
    disposed: bool,
) -> Result<Vec<Step>, AllocError>
    requires ties { closer.old ≡ all_ties sheet.now.sheet }
    ensures plans { IfOk result (λ steps. (r : Reading) → HasParts r sheet.now.sheet starts.old.items disposed (length log.old.entries + 1) → Plans r steps.items) }
    ensures starts { OnOk result (starts.new.items ≡ starts.old.items ++ replicate (length sheet.now.sheet.rows - length starts.old.items) None) }
    ensures room { IfOk result (λ steps. length steps.items + 1 ≤ room_of log.new.room (vec_capacity tickets.new) (vec_len tickets.new)) }
    ensures entries { log.new.entries ≡ log.old.entries }
    ensures tickets { tickets.new.items ≡ tickets.old.items }
    ensures ties { closer.new ≡ closer.old }
    ensures err { OnErr result (starts.new.items ≡ starts.old.items) }
{
    let more = sheet.rows().len().saturating_sub(starts.len());
    starts.reserve(more)?;
    let moment = Moment {
        sites: sites(alloc, starts)?,
        disposed,
        place: log.len() + 2,
    };
    let steps = closer.plan(sheet, starts, &moment)?;
    make_room(log, tickets, steps.len() + 1)?;
    pad(starts, more);
    Ok(steps)
}

impl Machine {
    /// Does an edit that isn't refused, and then what closes. The closer takes over the ties of the new sheet. It fails only
    /// without memory; then nothing has changed, and the edit comes back.
    pub fn edit(
        &mut self,
        closer: &mut Closer,
        editor: u8,
        edit: Edit,
    ) -> Result<(), (Edit, AllocError)>
        requires admitted { refusal (standing self.old.history).sheet edit ≡ None }
        requires ties { closer.old ≡ all_ties (standing self.old.history).sheet }
        ensures ok { OnOk result (Gains self.old.history (Entry.Edit editor edit) self.new.history) }
        ensures ties { closer.new ≡ all_ties (standing self.new.history).sheet }
        ensures err { IfErr result (λ refused. (refused.0 ≡ edit) × (self.new.history ≡ self.old.history)) }
    {
        let place = self.log.len() + 1;
        let old = match change(self.alloc, closer, &mut self.sheet, &edit, place) {
            Ok(old) => old,
            Err(refused) => return Err((edit, refused)),
        };
        match prepare(
            self.alloc,
            closer,
            &self.sheet,
            &mut self.starts,
            &mut self.tickets,
            &mut self.log,
            self.disposed,
        ) {
            Ok(steps) => {
                self.log.push(Entry::Edit { editor, edit });
                self.commit(steps);
                Ok(())
            }
            Err(refused) => {
                closer.go_back(old);
                self.sheet.undo();
                Err((edit, refused))
            }
        }
    }

    /// Does an edit that isn't refused, and nothing of what closes. It fails only without memory; then nothing has changed,
    /// and the edit comes back.
    pub fn edit_alone(&mut self, editor: u8, edit: Edit) -> Result<(), (Edit, AllocError)>
        requires { refusal (standing self.old.history).sheet edit ≡ None }
        ensures ok { OnOk result (self.new.history ≡ plus self.old.history (Entry.Edit editor edit)) }
        ensures err { IfErr result (λ refused. (refused.0 ≡ edit) × (self.new.history ≡ self.old.history)) }
    {
        match change_alone(
            self.alloc,
            &mut self.sheet,
            &mut self.starts,
            &mut self.log,
            &edit,
        ) {
            Ok(()) => {
                self.log.push(Entry::Edit { editor, edit });
                Ok(())
            }
            Err(refused) => Err((edit, refused)),
        }
    }
}
