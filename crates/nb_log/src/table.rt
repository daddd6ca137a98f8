//! The lines of the table: one for each variable, and the last one.

ghost use Rattle.std.specs.Prelude.{◌≡◌, ◌++◌, OnOk};
ghost use Rattle.std.specs.Option.{option_copied};
ghost use Rattle.nb_log.specs.Printing.{outcome_items, table_value, done_value, line_text};
ghost use Rattle.nb_log.specs.Pieces.{items_after};

use crate::item::{open, push_error, push_named, push_text_item};
use crate::lines::push_numbered;
use crate::piece::push_name;
use nb_value::{Bytes, CellError, Outcome, Text, Value};
use std::alloc::{AllocError, Global};

/// Adds the line of the table on a variable, with its name and what it shows. It fails only without memory, and may then
/// have added a front of the line.
#[tactic(auto, using(crate::proofs::PieceLemmas::lines))]
pub fn push_table_line(
    alloc: Global,
    out: &mut Bytes,
    var: u32,
    name: Option<&Text>,
    shown: Option<&Outcome>,
) -> Result<(), AllocError>
    ensures { OnOk result (out.new ≡ out.old ++ line_text (table_value var (option_copied name.entry) (option_copied shown.entry))) }
{
    open(alloc, out, "value", var as u64)?;
    out.append(b",")?;
    push_name(alloc, out, name)?;
    push_outcome(alloc, out, shown)?;
    out.append(b"]\n")
}

/// Adds the last line of the table, with the number of entries. It fails only without memory, and may then have added a
/// front of the line.
pub fn push_done_line(alloc: Global, out: &mut Bytes, entries: u64) -> Result<(), AllocError>
    ensures { OnOk result (out.new ≡ out.old ++ line_text (done_value entries)) }
{
    push_numbered(alloc, out, "done", entries)
}

// What a variable shows, or that it waits.
fn push_outcome(alloc: Global, out: &mut Bytes, shown: Option<&Outcome>) -> Result<(), AllocError>
    ensures { OnOk result (out.new ≡ out.old ++ items_after (outcome_items (option_copied shown.entry))) }
{
    match shown {
        None => push_waiting(alloc, out),
        Some(Outcome::Value(value)) => push_given(alloc, out, value),
        Some(Outcome::Error(error)) => push_failed(alloc, out, error),
    }
}

#[tactic(auto, using(crate::proofs::PieceLemmas::lines))]
fn push_waiting(alloc: Global, out: &mut Bytes) -> Result<(), AllocError>
    ensures { OnOk result (out.new ≡ out.old ++ items_after (outcome_items None)) }
{
    push_text_item(alloc, out, "waiting")
}

fn push_given(alloc: Global, out: &mut Bytes, value: &Value) -> Result<(), AllocError>
    ensures { OnOk result (out.new ≡ out.old ++ items_after (outcome_items (Some (Outcome.Value value.now)))) }
{
    push_named(alloc, out, "fulfilled", value)
}

#[tactic(auto, using(crate::proofs::PieceLemmas::lines))]
fn push_failed(alloc: Global, out: &mut Bytes, error: &CellError) -> Result<(), AllocError>
    ensures { OnOk result (out.new ≡ out.old ++ items_after (outcome_items (Some (Outcome.Error error.now)))) }
{
    push_text_item(alloc, out, "rejected")?;
    push_error(alloc, out, error)
}
