//! What a log leaves, by a fold over its entries.

ghost use Rattle.std.specs.Prelude.{◌≡◌, ◌≤◌, true, length, IfOk, OnOk};
ghost use Rattle.nb_history.specs.History.{standing, plus};
ghost use Rattle.nb_history.specs.Log.{reading as reading_of, Fits, IsLegal};
ghost use Rattle.nb_history.specs.Reading.{owed};
ghost use Rattle.nb_history.specs.Rules.{ready, may_start, next};
ghost use Rattle.nb_closing.specs.Ties.{all_ties};
ghost use Rattle.nb_core.specs.Edits.{is_edit as is_of_edit};
ghost use Rattle.nb_core.specs.Parts.{AreParts};

use crate::doing::done_of;
use crate::machine::Machine;
use crate::replayed::Reading;
use nb_closing::{Ties, footing, tie};
use nb_log::{Entry, Event, Log, Refusal};
use nb_sheet::Edit;
use nb_value::{Answer, Pairs, Tree, Value};
use nb_work::{entry_of, notice_of, work_of};
use std::alloc::{AllocError, Global};
use std::mem::drop;

/// An edit, and nothing of what closes after it.
fn replay_edit(
    alloc: Global,
    machine: &mut Machine,
    editor: u8,
    edit: &Edit,
) -> Result<(), AllocError>
    requires { Fits (standing machine.old.history) (Entry.Edit editor edit.now) }
    ensures { OnOk result (machine.new.history ≡ plus machine.old.history (Entry.Edit editor edit.now)) }
{
    let edit = edit.copy(alloc)?;
    match machine.edit_alone(editor, edit) {
        Ok(()) => Ok(()),
        Err((edit, refused)) => {
            drop(edit);
            Err(refused)
        }
    }
}

fn replay_frame(machine: &mut Machine, editor: u8) -> Result<(), AllocError>
    requires { Fits (standing machine.old.history) (Entry.Frame editor) }
    ensures { OnOk result (machine.new.history ≡ plus machine.old.history (Entry.Frame editor)) }
{
    machine.reserve(1)?;
    machine.frame(editor);
    Ok(())
}

fn replay_settled(
    alloc: Global,
    machine: &mut Machine,
    editor: u8,
    ticket: u64,
    answer: &Answer,
) -> Result<(), AllocError>
    ensures { OnOk result (machine.new.history ≡ plus machine.old.history (Entry.Settled editor ticket answer.now)) }
{
    let answer = answer.copy(alloc)?;
    match machine.settled(editor, ticket, answer) {
        Ok(()) => Ok(()),
        Err((answer, refused)) => {
            drop(answer);
            Err(refused)
        }
    }
}

fn replay_late(machine: &mut Machine, editor: u8, ticket: u64) -> Result<(), AllocError>
    ensures { OnOk result (machine.new.history ≡ plus machine.old.history (Entry.Late editor ticket)) }
{
    machine.reserve(1)?;
    machine.late(editor, ticket);
    Ok(())
}

fn replay_loaded(
    alloc: Global,
    machine: &mut Machine,
    ticket: u64,
    answer: &Answer,
) -> Result<(), AllocError>
    ensures { OnOk result (machine.new.history ≡ plus machine.old.history (Entry.Loaded ticket answer.now)) }
{
    let answer = answer.copy(alloc)?;
    match machine.loaded(ticket, answer) {
        Ok(()) => Ok(()),
        Err((answer, refused)) => {
            drop(answer);
            Err(refused)
        }
    }
}

fn replay_refused(
    alloc: Global,
    machine: &mut Machine,
    editor: u8,
    reason: Refusal,
    event: &Event,
) -> Result<(), AllocError>
    ensures { OnOk result (machine.new.history ≡ plus machine.old.history (Entry.Refused editor reason event.now)) }
{
    machine.reserve(1)?;
    let event = event.copy(alloc)?;
    machine.refuse(editor, reason, event);
    Ok(())
}

fn replay_rest(machine: &mut Machine, editor: u8) -> Result<(), AllocError>
    ensures { OnOk result (machine.new.history ≡ plus machine.old.history (Entry.Rest editor)) }
{
    machine.reserve(1)?;
    machine.rest(editor);
    Ok(())
}

fn replay_dispose(machine: &mut Machine, editor: u8) -> Result<(), AllocError>
    ensures { OnOk result (machine.new.history ≡ plus machine.old.history (Entry.Dispose editor)) }
{
    machine.reserve(1)?;
    machine.dispose(editor);
    Ok(())
}

/// A variable starts, on what it rests on now.
fn replay_pending(
    alloc: Global,
    machine: &mut Machine,
    ties: &Vec<Ties>,
    var: u32,
) -> Result<(), AllocError>
    requires ties { ties.now.items ≡ all_ties (standing machine.old.history).sheet }
    requires starts { may_start (standing machine.old.history) var ≡ true }
    ensures { OnOk result (machine.new.history ≡ plus machine.old.history (Entry.Pending var (owed (standing machine.old.history) var))) }
{
    machine.reserve(1)?;
    let kept = footing(alloc, machine.sheet(), ties, machine.starts(), var)?;
    machine.pend(var, kept);
    Ok(())
}

fn replay_left(machine: &mut Machine, var: u32) -> Result<(), AllocError>
    ensures { OnOk result (machine.new.history ≡ plus machine.old.history (Entry.Left var (owed (standing machine.old.history) var))) }
{
    machine.reserve(1)?;
    machine.leave(var);
    Ok(())
}

/// The next entry of a ready variable. Its work is done once more, since the log doesn't have what cleanups it left.
fn replay_notice(
    alloc: Global,
    machine: &mut Machine,
    ties: &Vec<Ties>,
    var: u32,
) -> Result<(), AllocError>
    requires ties { ties.now.items ≡ all_ties (standing machine.old.history).sheet }
    requires ready { ready (standing machine.old.history) var ≡ true }
    ensures { OnOk result (machine.new.history ≡ plus machine.old.history (next (standing machine.old.history) var)) }
{
    machine.reserve(1)?;
    let work = work_of(alloc, machine.sheet(), ties, machine.starts(), var)?;
    let done = done_of(alloc, work)?;
    let ticket = machine.tickets().len() as u64 + 1;
    let entry = entry_of(alloc, machine.sheet(), machine.starts(), var, ticket, &done)?;
    let notice = notice_of(machine.sheet(), machine.starts(), var, done);
    machine.enter(var, entry, notice);
    Ok(())
}

/// Adds an entry that fits, where the sheet has these ties. It fails only without memory.
fn replay(
    alloc: Global,
    machine: &mut Machine,
    ties: &Vec<Ties>,
    entry: &Entry,
) -> Result<(), AllocError>
    requires ties { ties.now.items ≡ all_ties (standing machine.old.history).sheet }
    requires fits { Fits (standing machine.old.history) entry.now }
    ensures { OnOk result (machine.new.history ≡ plus machine.old.history entry.now) }
{
    match entry {
        Entry::Edit { editor, edit } => replay_edit(alloc, machine, *editor, edit),
        Entry::Frame { editor } => replay_frame(machine, *editor),
        Entry::Settled {
            editor,
            ticket,
            answer,
        } => replay_settled(alloc, machine, *editor, *ticket, answer),
        Entry::Late { editor, ticket } => replay_late(machine, *editor, *ticket),
        Entry::Loaded { ticket, answer } => replay_loaded(alloc, machine, *ticket, answer),
        Entry::Refused {
            editor,
            reason,
            event,
        } => replay_refused(alloc, machine, *editor, *reason, event),
        Entry::Rest { editor } => replay_rest(machine, *editor),
        Entry::Dispose { editor } => replay_dispose(machine, *editor),
        Entry::Pending { var, .. } => replay_pending(alloc, machine, ties, *var),
        Entry::Fulfilled { var, .. } => replay_notice(alloc, machine, ties, *var),
        Entry::Rejected { var, .. } => replay_notice(alloc, machine, ties, *var),
        Entry::Asked { var, .. } => replay_notice(alloc, machine, ties, *var),
        Entry::Ended { var } => replay_notice(alloc, machine, ties, *var),
        Entry::Left { var, .. } => replay_left(machine, *var),
    }
}

/// Whether an entry is that of an edit.
fn is_edit(entry: &Entry) -> bool
    ensures { result ≡ is_of_edit entry.now }
{
    matches!(entry, Entry::Edit { .. })
}

/// Adds an entry that fits, and takes over the ties of the sheet that it leaves. It fails only without memory.
fn replay_next(
    alloc: Global,
    machine: &mut Machine,
    ties: &mut Vec<Ties>,
    entry: &Entry,
) -> Result<(), AllocError>
    requires ties { ties.old.items ≡ all_ties (standing machine.old.history).sheet }
    requires fits { Fits (standing machine.old.history) entry.now }
    ensures entry { OnOk result (machine.new.history ≡ plus machine.old.history entry.now) }
    ensures ties { OnOk result (ties.new.items ≡ all_ties (standing machine.new.history).sheet) }
{
    replay(alloc, machine, ties, entry)?;
    if is_edit(entry) {
        *ties = tie(alloc, machine.sheet())?;
    }
    Ok(())
}

/// What a legal log over at most 65,536 builtins leaves. It fails only without memory.
///
/// It costs an evaluation for each entry that work gave, a scan over the rows for each name of each cell at each edit, and a
/// look at each start at each frame and each start of a variable.
pub fn reading(alloc: Global, log: &Log, builtins: &Pairs<Value>) -> Result<Reading, AllocError>
    requires legal { IsLegal builtins.now log.now.entries }
    requires few { length builtins.now ≤ 65536 }
    ensures { IfOk result (λ left. AreParts left (reading_of builtins.now log.now.entries)) }
{
    let mut machine = Machine::new(alloc, builtins.copy(alloc)?)?;
    let mut ties = Vec::new(alloc);
    for entry in log.as_slice() {
        replay_next(alloc, &mut machine, &mut ties, entry)?;
    }
    Ok(machine.into_reading())
}
