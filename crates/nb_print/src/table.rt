ghost use Rattle.std.specs.Prelude.{◌≡◌, ◌≤◌, ◌<◌, ◌++◌, length, IfOk, OnOk, Some};
ghost use Rattle.nb_log.specs.Printing.{entry_value, entries_text, line_text, done_value as done_of};
ghost use Rattle.nb_sheet.specs.Lists.{nth};
ghost use Rattle.nb_history.specs.Print.{table_text, printing};
ghost use Rattle.nb_history.specs.History.{standing};
ghost use Rattle.nb_history.specs.Log.{NothingReady};
ghost use Rattle.nb_print.specs.Scratch.{scratch_table_text};
ghost use Rattle.nb_print.specs.Table.{var_text};

use nb_core::Core;
use nb_log::{Entry, Log, push_done_line, push_entries, push_table_line};
use nb_sheet::VarRow;
use nb_value::Bytes;
use std::alloc::{AllocError, Global};
use std::slice;

/// The line of an entry, with its line feed. It fails only without memory. Linear in its text.
pub fn print_entry(alloc: Global, entry: &Entry) -> Result<Bytes, AllocError>
    ensures { IfOk result (λ text. text ≡ line_text (entry_value entry.now)) }
{
    let mut out = Bytes::new(alloc);
    push_entries(alloc, &mut out, slice::from_ref(entry))?;
    Ok(out)
}

/// The lines of a log's entries, in order. Linear in their text.
pub fn print_log(alloc: Global, log: &Log) -> Result<Bytes, AllocError>
    ensures { IfOk result (λ text. text ≡ entries_text log.now.entries) }
{
    let mut out = Bytes::new(alloc);
    push_entries(alloc, &mut out, log.as_slice())?;
    Ok(out)
}

/// The table line of each wanted variable, by number, and last the line with the number of entries. Where nothing is
/// ready, each of these variables shows what evaluating the present definitions from scratch gives, or waits exactly
/// where that waits. Linear in their text.
pub fn print_table(alloc: Global, core: &Core) -> Result<Bytes, AllocError>
    ensures table { IfOk result (λ text. text ≡ table_text (standing core.now) ++ line_text (done_of (length core.now.log))) }
    ensures rest { NothingReady (standing core.now) → IfOk result (λ text. text ≡ scratch_table_text (standing core.now) ++ line_text (done_of (length core.now.log))) }
{
    let mut out = Bytes::new(alloc);
    push_table(alloc, &mut out, core)?;
    push_done_line(alloc, &mut out, core.log().len())?;
    Ok(out)
}

/// All that is written of a core: the lines of its log, and its table.
pub fn print(alloc: Global, core: &Core) -> Result<Bytes, AllocError>
    ensures { IfOk result (λ text. text ≡ printing core.now.builtins core.now.log) }
{
    let mut text = print_log(alloc, core.log())?;
    let table = print_table(alloc, core)?;
    text.append(table.as_slice())?;
    Ok(text)
}

fn push_table(alloc: Global, out: &mut Bytes, core: &Core) -> Result<(), AllocError>
    ensures { OnOk result (out.new ≡ out.old ++ table_text (standing core.now)) }
{
    push_rows(alloc, out, core, core.sheet().rows())
}

/// The table lines of the wanted variables among these rows, which are those of the core.
fn push_rows(alloc: Global, out: &mut Bytes, core: &Core, rows: &[VarRow]) -> Result<(), AllocError>
    requires rows { rows.now ≡ (standing core.now).sheet.rows }
    requires few { length rows.now ≤ 1024 }
    ensures { OnOk result (out.new ≡ out.old ++ table_text (standing core.now)) }
{
    for i in 0..rows.len() {
        push_variable(alloc, out, core, i as u32 + 1, &rows[i])?;
    }
    Ok(())
}

/// The table line of a variable, if it is wanted.
fn push_variable(
    alloc: Global,
    out: &mut Bytes,
    core: &Core,
    var: u32,
    row: &VarRow,
) -> Result<(), AllocError>
    requires { nth (standing core.now).sheet.rows var ≡ Some row.now }
    ensures { OnOk result (out.new ≡ out.old ++ var_text (standing core.now) var) }
{
    if !core.wanted(var) {
        return Ok(());
    }
    push_table_line(alloc, out, var, row.name.as_ref(), core.outcome(var))
}
