//! The quick way to start: the variables that are due or need something due are marked once, and a start takes its own
//! mark away.

ghost use Rattle.std.specs.Prelude.{◌≡◌, ◌≤◌, ◌<◌, ◌+◌, ◌^◌, ◌&&◌, not, ℕ, List, Some, None, true, length, OnOk};
ghost use Rattle.std.specs.List.{list_any};
ghost use Rattle.nb_graph.specs.Needs.{has};
ghost use Rattle.nb_wave.specs.declared.footing.Footing.{Footing as FootingValue};
ghost use Rattle.nb_wave.specs.declared.row.Row.{Row as RowValue};
ghost use Rattle.nb_wave.specs.Rules.{is_wanted, passes, leaving, due, least, rests_on, IsSound, NeedsVariables};
ghost use Rattle.nb_wave.specs.Changes.{IsSince};
ghost use Rattle.nb_wave.specs.Marks.{marked, AreMarks};
ghost use Rattle.nb_wave.specs.Steps.{next_step, Runs};
ghost use Rattle.nb_wave.specs.QuickRows.{starts_next, AllBelow, Follows as DoesFollow, IsQuick, AreQuick};
ghost use Rattle.nb_wave.specs.Users.{Reverse};
ghost use Rattle.nb_wave.specs.Wave.{IsRows};

use crate::due::{any_marked, pulls};
use crate::row::Row;
use crate::step::Step;
use crate::steps::begin;
use crate::table::Change;
use crate::users::Users;
use std::alloc::{AllocError, Global};

/// Whether all numbers are below a place.
fn all_below(numbers: &[u64], place: u64) -> bool
    ensures { result ≡ true → AllBelow place numbers.now }
{
    for number in numbers {
        if *number >= place {
            return false;
        }
    }
    true
}

/// Whether all these variables are wanted.
fn all_wanted(rows: &[Row], vars: &[u32]) -> bool
    requires { (u : ℕ) → has vars.now u ≡ true → u < length rows.now }
    ensures { result ≡ true → (u : ℕ) → has vars.now u ≡ true → passes is_wanted rows.now u ≡ true }
{
    for u in vars {
        if !rows[*u as usize].wanted {
            return false;
        }
    }
    true
}

/// Whether its start, if it has one, rests on no start from this place on.
fn kept_before(row: &Row, place: u64) -> bool
    ensures { result ≡ true → (k : FootingValue) → row.now.kept ≡ Some k → AllBelow place k.starts }
{
    match &row.kept {
        None => true,
        Some(kept) => all_below(kept.starts.as_slice(), place),
    }
}

/// Whether a start, from this place on, of what it needs leaves it behind.
fn follows(row: &Row, place: u64) -> bool
    ensures { result ≡ true → DoesFollow place row.now }
{
    row.needs.as_slice().len() <= row.present.starts.as_slice().len() && kept_before(row, place)
}

/// Whether a row's mark, if it is wanted and has one, goes with its own start alone.
fn is_quick(rows: &[Row], near: &[bool], place: u64, row: &Row, mark: bool) -> bool
    requires needs { (u : ℕ) → has row.now.needs u ≡ true → u < length rows.now }
    requires room { length rows.now ≤ length near.now }
    ensures { result ≡ true → row.now.wanted ≡ true → mark ≡ true → IsQuick rows.now near.now place row.now }
{
    if !mark || !row.wanted {
        return true;
    }
    let needs = row.needs.as_slice();
    all_wanted(rows, needs) && (!any_marked(needs, near) || follows(row, place))
}

/// Whether the marks of what is due, or needs something due, tell the starts from this place on. It takes one pass over
/// variables and needs.
pub fn are_quick(rows: &[Row], near: &[bool], place: u64) -> bool
    requires needs { NeedsVariables rows.now }
    requires near { AreMarks rows.now (rests_on (due rows.now) rows.now) near.now }
    requires size { length near.now ≡ length rows.now }
    ensures { result ≡ true → AreQuick rows.now near.now place }
{
    if pulls(rows) {
        return false;
    }
    for v in 0..rows.len() {
        if !is_quick(rows, near, place, &rows[v], near[v]) {
            return false;
        }
    }
    true
}

/// Whether a variable is wanted and marked, and nothing that it needs directly is marked.
fn is_next(row: &Row, mark: bool, near: &[bool]) -> bool
    requires { (u : ℕ) → has row.now.needs u ≡ true → u < length near.now }
    ensures { result ≡ (row.now.wanted && mark && not (list_any (marked near.now) row.now.needs)) }
{
    row.wanted && mark && !any_marked(row.needs.as_slice(), near)
}

/// The least variable that is wanted and marked, and needs nothing that is marked.
fn next_near(rows: &[Row], near: &[bool]) -> Option<u32>
    requires few { length rows.now < 2 ^ 32 }
    requires needs { NeedsVariables rows.now }
    requires size { length near.now ≡ length rows.now }
    ensures { result ≡ least (starts_next near.now) rows.now }
{
    for v in 1..rows.len() {
        if is_next(&rows[v], near[v], near) {
            return Some(v as u32);
        }
    }
    None
}

/// Starts all that are due, each when it may, the least first, where marks tell them. The first start stands at this
/// place. Each start takes a pass over the marks, and what it changes.
pub fn start_quickly(
    alloc: Global,
    rows: &mut Vec<Row>,
    changes: &mut Vec<Change>,
    users: &Users,
    near: &mut Vec<bool>,
    place: u64,
    steps: &mut Vec<Step>,
) -> Result<(), AllocError>
    requires users { Reverse rows.old.items users.now }
    requires quick { AreQuick rows.old.items near.old.items place }
    requires rows { IsRows rows.old.items }
    requires sound { IsSound rows.old.items }
    requires none { least leaving rows.old.items ≡ None }
    requires fits { place + 1024 < 2 ^ 64 }
    ensures runs { OnOk result ((first : List RowValue) (p : ℕ) → p + length steps.old.items ≡ place → Runs first p steps.old.items rows.old.items
        → Runs first p steps.new.items rows.new.items) }
    ensures rows { OnOk result (IsRows rows.new.items) }
    ensures sound { OnOk result (IsSound rows.new.items) }
    ensures ends { OnOk result (next_step rows.new.items ≡ None) }
    ensures since { IsSince changes.old.items rows.old.items changes.new.items rows.new.items }
{
    let mut next = place;
    while let Some(v) = next_near(rows, near) {
        begin(alloc, rows, changes, users.of(v), v, next)?;
        near[v as usize] = false;
        steps.push(Step::Pending(v))?;
        next += 1;
    }
    Ok(())
}
