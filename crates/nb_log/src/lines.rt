//! Entries as lines of JSON, written straight as text.

ghost use Rattle.std.specs.Prelude.{◌≡◌, [], ◌∷◌, ◌++◌, OnOk};
ghost use Rattle.nb_value.specs.declared.value.Value.TheVariants as V;
ghost use Rattle.nb_log.specs.Printing.{number, entry_value, line_text, entries_text};

use crate::entry::{Entry, Refusal};
use crate::event::Event;
use crate::item::{open, push_answer, push_error, push_item, push_number_item, push_text_item};
use crate::names::{refusal_name, refusal_number};
use crate::object::{push_edit, push_event};
use crate::piece::push_list;
use nb_sheet::Edit;
use nb_value::{Answer, Bytes, CellError, Text, Value};
use std::alloc::{AllocError, Global};

/// Adds the lines of the entries, in time linear in their text. It fails only without memory, and may then have added
/// a front of them.
pub fn push_entries(alloc: Global, out: &mut Bytes, entries: &[Entry]) -> Result<(), AllocError>
    ensures { OnOk result (out.new ≡ out.old ++ entries_text entries.now) }
{
    for entry in entries {
        push_entry(alloc, out, entry)?;
    }
    Ok(())
}

fn push_entry(alloc: Global, out: &mut Bytes, entry: &Entry) -> Result<(), AllocError>
    ensures { OnOk result (out.new ≡ out.old ++ line_text (entry_value entry.now)) }
{
    match entry {
        Entry::Edit { editor, edit } => push_edited(alloc, out, *editor, edit),
        Entry::Frame { editor } => push_numbered(alloc, out, "frame", *editor as u64),
        Entry::Settled {
            editor,
            ticket,
            answer,
        } => push_settled(alloc, out, *editor, *ticket, answer),
        Entry::Late { editor, ticket } => push_late(alloc, out, *editor, *ticket),
        Entry::Loaded { ticket, answer } => push_loaded(alloc, out, *ticket, answer),
        Entry::Refused {
            editor,
            reason,
            event,
        } => push_refused(alloc, out, *editor, *reason, event),
        Entry::Rest { editor } => push_numbered(alloc, out, "rest", *editor as u64),
        Entry::Dispose { editor } => push_numbered(alloc, out, "dispose", *editor as u64),
        Entry::Pending { var, disposed } => {
            push_disposed(alloc, out, "pending", *var, disposed.as_slice())
        }
        Entry::Fulfilled { var, value } => push_fulfilled(alloc, out, *var, value),
        Entry::Rejected { var, error } => push_rejected(alloc, out, *var, error),
        Entry::Asked { var, ticket, key } => push_asked(alloc, out, *var, *ticket, key),
        Entry::Ended { var } => push_numbered(alloc, out, "ended", *var as u64),
        Entry::Left { var, disposed } => {
            push_disposed(alloc, out, "left", *var, disposed.as_slice())
        }
    }
}

/// Adds the line of a name and a number.
#[tactic(auto, using(crate::proofs::PieceLemmas::lines))]
pub(crate) fn push_numbered(
    alloc: Global,
    out: &mut Bytes,
    name: &str,
    n: u64,
) -> Result<(), AllocError>
    ensures { OnOk result (out.new ≡ out.old ++ line_text (V.List (V.Text name.now ∷ number n ∷ []))) }
{
    open(alloc, out, name, n)?;
    out.append(b"]\n")
}

#[tactic(auto, using(crate::proofs::PieceLemmas::lines))]
fn push_edited(alloc: Global, out: &mut Bytes, editor: u8, edit: &Edit) -> Result<(), AllocError>
    ensures { OnOk result (out.new ≡ out.old ++ line_text (entry_value (Entry.Edit editor edit.now))) }
{
    open(alloc, out, "edit", editor as u64)?;
    out.append(b",")?;
    push_edit(alloc, out, edit)?;
    out.append(b"]\n")
}

#[tactic(auto, using(crate::proofs::PieceLemmas::lines))]
fn push_settled(
    alloc: Global,
    out: &mut Bytes,
    editor: u8,
    ticket: u64,
    answer: &Answer,
) -> Result<(), AllocError>
    ensures { OnOk result (out.new ≡ out.old ++ line_text (entry_value (Entry.Settled editor ticket answer.now))) }
{
    open(alloc, out, "settled", editor as u64)?;
    push_number_item(out, ticket)?;
    push_answer(alloc, out, answer)?;
    out.append(b"]\n")
}

#[tactic(auto, using(crate::proofs::PieceLemmas::lines))]
fn push_late(alloc: Global, out: &mut Bytes, editor: u8, ticket: u64) -> Result<(), AllocError>
    ensures { OnOk result (out.new ≡ out.old ++ line_text (entry_value (Entry.Late editor ticket))) }
{
    open(alloc, out, "late", editor as u64)?;
    push_number_item(out, ticket)?;
    out.append(b"]\n")
}

#[tactic(auto, using(crate::proofs::PieceLemmas::lines))]
fn push_loaded(
    alloc: Global,
    out: &mut Bytes,
    ticket: u64,
    answer: &Answer,
) -> Result<(), AllocError>
    ensures { OnOk result (out.new ≡ out.old ++ line_text (entry_value (Entry.Loaded ticket answer.now))) }
{
    open(alloc, out, "loaded", ticket)?;
    push_answer(alloc, out, answer)?;
    out.append(b"]\n")
}

#[tactic(auto, using(crate::proofs::PieceLemmas::lines))]
fn push_refused(
    alloc: Global,
    out: &mut Bytes,
    editor: u8,
    reason: Refusal,
    event: &Event,
) -> Result<(), AllocError>
    ensures { OnOk result (out.new ≡ out.old ++ line_text (entry_value (Entry.Refused editor reason event.now))) }
{
    open(alloc, out, "refused", editor as u64)?;
    push_number_item(out, refusal_number(reason) as u64)?;
    push_text_item(alloc, out, refusal_name(reason))?;
    out.append(b",")?;
    push_event(alloc, out, event)?;
    out.append(b"]\n")
}

// A start or a leaving, with the cleanups that it runs.
#[tactic(auto, using(crate::proofs::PieceLemmas::lines))]
fn push_disposed(
    alloc: Global,
    out: &mut Bytes,
    name: &str,
    var: u32,
    disposed: &[Value],
) -> Result<(), AllocError>
    ensures { OnOk result (out.new ≡ out.old ++ line_text (V.List (V.Text name.now ∷ number var ∷ V.List disposed.now ∷ []))) }
{
    open(alloc, out, name, var as u64)?;
    out.append(b",")?;
    push_list(alloc, out, disposed)?;
    out.append(b"]\n")
}

fn push_fulfilled(alloc: Global, out: &mut Bytes, var: u32, value: &Value) -> Result<(), AllocError>
    ensures { OnOk result (out.new ≡ out.old ++ line_text (entry_value (Entry.Fulfilled var value.now))) }
{
    open(alloc, out, "fulfilled", var as u64)?;
    push_item(alloc, out, value)?;
    out.append(b"]\n")
}

#[tactic(auto, using(crate::proofs::PieceLemmas::lines))]
fn push_rejected(
    alloc: Global,
    out: &mut Bytes,
    var: u32,
    error: &CellError,
) -> Result<(), AllocError>
    ensures { OnOk result (out.new ≡ out.old ++ line_text (entry_value (Entry.Rejected var error.now))) }
{
    open(alloc, out, "rejected", var as u64)?;
    push_error(alloc, out, error)?;
    out.append(b"]\n")
}

#[tactic(auto, using(crate::proofs::PieceLemmas::lines))]
fn push_asked(
    alloc: Global,
    out: &mut Bytes,
    var: u32,
    ticket: u64,
    key: &Text,
) -> Result<(), AllocError>
    ensures { OnOk result (out.new ≡ out.old ++ line_text (entry_value (Entry.Asked var ticket key.now))) }
{
    open(alloc, out, "asked", var as u64)?;
    push_number_item(out, ticket)?;
    push_text_item(alloc, out, key.as_str())?;
    out.append(b"]\n")
}
