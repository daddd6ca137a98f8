ghost use Rattle.std.specs.Prelude.{◌≡◌, ◌<◌, ◌^◌, ◌+◌, ◌-◌, [], length, Some, None, OnOk, OnErr};
ghost use Rattle.std.specs.Option.{option_copied};
ghost use Rattle.nb_sheet.specs.Lists.{put, from_option};
ghost use Rattle.nb_runs.specs.Starts.{pulled_once, generates_in, all_pulled, change_in, start_in, shown_by, asked_by, ended_by, PullsBelow};
ghost use Rattle.nb_history.specs.Log.{answering};
ghost use Rattle.nb_history.specs.Reading.{Start};

use crate::started::Started;
use nb_sheet::{BodyOf, Sheet};
use nb_syntax::is_generator;
use nb_value::{Answer, Items, Outcome, Value};
use std::alloc::{AllocError, Global};
use std::mem::{drop, replace};

/// Whether a variable's body is a generator.
pub fn generates(sheet: &Sheet, v: u32) -> bool
    ensures { result ≡ generates_in sheet.now.sheet v }
{
    match sheet.variable(v) {
        None => false,
        Some(row) => match &row.body {
            Some(BodyOf::Cell(cell)) => is_generator(cell),
            _ => false,
        },
    }
}

/// Pulls a variable's start, where it is a generator's.
fn pull_at(start: &mut Option<Started>, generator: bool)
    requires { (s : Start) → start.old ≡ Some s → s.pulls + 1 < 2 ^ 32 }
    ensures { start.new ≡ pulled_once generator start.old }
{
    if generator {
        if let Some(start) = start {
            start.pull();
        }
    }
}

/// Pulls each generator that waits for a pull. It takes no memory.
pub fn pull_all(sheet: &Sheet, starts: &mut Vec<Option<Started>>)
    requires same_len { length starts.old.items ≡ length sheet.now.sheet.rows }
    requires low { PullsBelow (2 ^ 32 - 1) starts.old.items }
    ensures { starts.new.items ≡ all_pulled sheet.now.sheet 1 starts.old.items }
{
    let rows = sheet.rows();
    for k in 0..rows.len() {
        let generator = generates(sheet, k as u32 + 1);
        pull_at(&mut starts[k], generator);
    }
}

/// Shows an outcome.
pub fn show_in(
    start: &mut Option<Started>,
    outcome: Outcome,
    cleanups: Items<Value>,
    ends: bool,
    place: u64,
)
    ensures { start.new ≡ change_in start.old (shown_by outcome cleanups ends place) }
{
    if let Some(start) = start {
        start.show(outcome, cleanups, ends, place);
    }
}

/// Waits for an answer.
pub fn ask_in(start: &mut Option<Started>, ticket: u64, cleanups: Items<Value>)
    ensures { start.new ≡ change_in start.old (asked_by ticket cleanups) }
{
    if let Some(start) = start {
        start.ask(ticket, cleanups);
    }
}

/// Has no further value.
pub fn end_in(start: &mut Option<Started>, cleanups: Items<Value>)
    ensures { start.new ≡ change_in start.old (ended_by cleanups) }
{
    if let Some(start) = start {
        start.end(cleanups);
    }
}

/// Takes a variable's start out.
pub fn take(starts: &mut Vec<Option<Started>>, v: u32) -> Option<Started>
    ensures starts { starts.new.items ≡ put starts.old.items v None }
    ensures start { result ≡ start_in starts.old.items v }
{
    if v >= 1 && v as usize <= starts.len() {
        replace(&mut starts[v as usize - 1], None)
    } else {
        None
    }
}

/// Puts a variable's start in its place.
pub fn put_start(starts: &mut Vec<Option<Started>>, v: u32, start: Option<Started>)
    ensures { starts.new.items ≡ put starts.old.items v start }
{
    if v >= 1 && v as usize <= starts.len() {
        drop(replace(&mut starts[v as usize - 1], start));
    } else {
        drop(start);
    }
}

/// What a start owes, and nothing where there is none.
pub fn owed_of(alloc: Global, start: Option<Started>) -> Items<Value>
    ensures { result ≡ from_option [] (λ (s : Start). s.owed) start }
{
    match start {
        None => Items::new(alloc),
        Some(start) => start.into_owed(),
    }
}

/// Takes an answer and runs on. Where memory runs out, nothing has changed.
pub fn answer_in(start: &mut Option<Started>, answer: Answer) -> Result<(), AllocError>
    ensures ok { OnOk result (start.new ≡ change_in start.old (answering answer)) }
    ensures err { OnErr result (start.new ≡ start.old) }
{
    if let Some(start) = start {
        start.answer(answer)?;
    }
    Ok(())
}

/// The number of a start, and 0 where there is none.
pub fn number_of(start: &Option<Started>) -> u64
    ensures { result ≡ from_option 0 (λ (s : Start). s.number) start.now }
{
    match start {
        None => 0,
        Some(start) => start.number(),
    }
}

/// A variable's start, if it has one.
pub fn start_at(starts: &Vec<Option<Started>>, v: u32) -> Option<&Started>
    ensures { option_copied result ≡ start_in starts.now.items v }
{
    if v == 0 {
        return None;
    }
    match starts.get(v as usize - 1) {
        None => None,
        Some(start) => start.as_ref(),
    }
}
