//! The summary of a made notebook.

ghost use Rattle.std.specs.Prelude.{◌≡◌, ◌≤◌, ◌∷◌, ◌++◌, length, decimal, IfOk, OnOk};
ghost use Rattle.std.specs.Option.{option_copied};
ghost use Rattle.nb_log.specs.Printing.{line_text};
ghost use Rattle.nb_history.specs.History.{standing};
ghost use Rattle.nb_print.specs.Summary.{is_of, lines_for, lines_of_kind, made_value, numbers_text, summary_text};

use itoa::Buffer;
use nb_core::Core;
use nb_log::push_done_line;
use nb_sheet::VarRow;
use nb_value::{Bytes, Outcome};
use std::alloc::{AllocError, Global};

/// What a notebook was made of.
#[derive(Clone, Copy, Debug)]
pub struct Making {
    /// The number of its cells.
    pub cells: u32,
    /// The seed that its cells were drawn from.
    pub seed: u32,
    /// The number of its lines.
    pub lines: u64,
}

/// What a line of the table tells of a variable.
#[derive(Clone, Copy, Debug)]
pub enum Kind {
    /// A value.
    Fulfilled,
    /// A failure.
    Rejected,
    /// That it waits.
    Waiting,
}

/// The two lines that tell what a made notebook came to: one with what it was made of, the number of entries of its log
/// and the numbers of table lines that tell a value, a failure and that a variable waits; and the line with the number of
/// entries. It fails only without memory. Linear in the variables.
#[tactic(auto, unfolding(crate::specs::Summary::summary_text))]
pub fn print_summary(alloc: Global, making: Making, core: &Core) -> Result<Bytes, AllocError>
    ensures { IfOk result (λ text. text ≡ summary_text making core.now) }
{
    let mut out = Bytes::new(alloc);
    push_made_line(&mut out, making, core)?;
    push_done_line(alloc, &mut out, core.log().len())?;
    Ok(out)
}

/// Adds the line with what a notebook was made of and what it came to.
#[tactic(auto, using(crate::proofs::SummaryLemmas::written))]
fn push_made_line(out: &mut Bytes, making: Making, core: &Core) -> Result<(), AllocError>
    ensures { OnOk result (out.new ≡ out.old ++ line_text (made_value making core.now)) }
{
    let numbers = [
        making.cells as u64,
        making.seed as u64,
        making.lines,
        core.log().len(),
        lines_of_kind(core, Kind::Fulfilled),
        lines_of_kind(core, Kind::Rejected),
        lines_of_kind(core, Kind::Waiting),
    ];
    out.append(b"[\"made\"")?;
    push_numbers(out, &numbers)?;
    out.append(b"]\n")
}

/// Adds each number behind a comma.
fn push_numbers(out: &mut Bytes, numbers: &[u64]) -> Result<(), AllocError>
    ensures { OnOk result (out.new ≡ out.old ++ numbers_text numbers.now) }
{
    for number in numbers {
        push_number(out, *number)?;
    }
    Ok(())
}

/// Adds a comma and a number in decimal.
fn push_number(out: &mut Bytes, number: u64) -> Result<(), AllocError>
    ensures { OnOk result (out.new ≡ out.old ++ 44 ∷ decimal number) }
{
    let mut buffer = Buffer::new();
    out.append(b",")?;
    out.append(buffer.format(number).as_bytes())
}

/// How many lines of the table are of this kind.
fn lines_of_kind(core: &Core, kind: Kind) -> u64
    ensures { result ≡ lines_of_kind kind (standing core.now) }
{
    lines_among(core, kind, core.sheet().rows())
}

/// How many lines of the table these rows have of this kind, which are those of the core.
fn lines_among(core: &Core, kind: Kind, rows: &[VarRow]) -> u64
    requires rows { rows.now ≡ (standing core.now).sheet.rows }
    requires few { length rows.now ≤ 1024 }
    ensures { result ≡ lines_of_kind kind (standing core.now) }
{
    let mut count = 0;
    for i in 0..rows.len() {
        count += lines_for(core, kind, i as u32 + 1);
    }
    count
}

/// How many lines of the table a variable has of this kind, which is one or none.
fn lines_for(core: &Core, kind: Kind, var: u32) -> u64
    ensures value { result ≡ lines_for kind (standing core.now) var }
    ensures most { result ≤ 1 }
{
    if core.wanted(var) && is_of(kind, core.outcome(var)) {
        1
    } else {
        0
    }
}

/// Whether a line of the table that tells this is of the kind.
fn is_of(kind: Kind, told: Option<&Outcome>) -> bool
    ensures { result ≡ is_of kind (option_copied told.entry) }
{
    match (kind, told) {
        (Kind::Fulfilled, Some(Outcome::Value(_))) => true,
        (Kind::Rejected, Some(Outcome::Error(_))) => true,
        (Kind::Waiting, None) => true,
        _ => false,
    }
}
