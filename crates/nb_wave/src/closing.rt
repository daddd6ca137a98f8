//! The steps in their order.

ghost use Rattle.std.specs.Prelude.{◌≡◌, ◌≤◌, ◌<◌, ◌+◌, ◌^◌, ℕ, List, None, length, IfOk, OnOk};
ghost use Rattle.nb_wave.specs.declared.row.Row.{Row as RowValue};
ghost use Rattle.nb_wave.specs.Rules.{leaving, least, IsSound};
ghost use Rattle.nb_wave.specs.Changes.{IsSince};
ghost use Rattle.nb_wave.specs.Steps.{next_step, Runs, Closes};
ghost use Rattle.nb_wave.specs.Users.{Reverse};
ghost use Rattle.nb_wave.specs.Wave.{IsRows};

use crate::due::next_leaving;
use crate::quick::{are_quick, start_quickly};
use crate::row::Row;
use crate::step::Step;
use crate::steps::{begin, leave};
use crate::table::Change;
use crate::users::{Users, near, next_start};
use std::alloc::{AllocError, Global};

/// Makes all idle that are leaving, the least first. Each takes a pass over variables, and what it changes.
fn leave_all(
    alloc: Global,
    rows: &mut Vec<Row>,
    changes: &mut Vec<Change>,
    users: &Users,
) -> Result<Vec<Step>, AllocError>
    requires rows { IsRows rows.old.items }
    requires users { Reverse rows.old.items users.now }
    requires sound { IsSound rows.old.items }
    ensures runs { IfOk result (λ steps. (place : ℕ) → Runs rows.old.items place steps.items rows.new.items) }
    ensures rows { OnOk result (IsRows rows.new.items) }
    ensures sound { OnOk result (IsSound rows.new.items) }
    ensures users { OnOk result (Reverse rows.new.items users.now) }
    ensures none { OnOk result (least leaving rows.new.items ≡ None) }
    ensures few { IfOk result (λ steps. length steps.items ≤ 1024) }
    ensures since { IsSince changes.old.items rows.old.items changes.new.items rows.new.items }
{
    let mut steps = Vec::new(alloc);
    while let Some(v) = next_leaving(rows) {
        leave(alloc, rows, changes, users.of(v), v)?;
        steps.push(Step::Left(v))?;
    }
    Ok(steps)
}

/// Starts all that are due, each when it may, the least first. The first start stands at this place. Each start takes a few
/// passes over variables and needs.
fn start_all(
    alloc: Global,
    rows: &mut Vec<Row>,
    changes: &mut Vec<Change>,
    users: &Users,
    place: u64,
    steps: &mut Vec<Step>,
) -> Result<(), AllocError>
    requires rows { IsRows rows.old.items }
    requires users { Reverse rows.old.items users.now }
    requires sound { IsSound rows.old.items }
    requires none { least leaving rows.old.items ≡ None }
    requires fits { place + 1024 < 2 ^ 64 }
    ensures runs { OnOk result ((first : List RowValue) (p : ℕ) → p + length steps.old.items ≡ place → Runs first p steps.old.items rows.old.items
        → Runs first p steps.new.items rows.new.items) }
    ensures rows { OnOk result (IsRows rows.new.items) }
    ensures sound { OnOk result (IsSound rows.new.items) }
    ensures ends { OnOk result (next_step rows.new.items ≡ None) }
    ensures since { IsSince changes.old.items rows.old.items changes.new.items rows.new.items }
{
    let mut next = place;
    while let Some(v) = next_start(alloc, &users.graph, rows)? {
        begin(alloc, rows, changes, users.of(v), v, next)?;
        steps.push(Step::Pending(v))?;
        next += 1;
    }
    Ok(())
}

/// The same, with the marks of what starts taken once where that can be, and then each start takes a pass over marks and
/// what it changes.
fn start_each(
    alloc: Global,
    rows: &mut Vec<Row>,
    changes: &mut Vec<Change>,
    users: &Users,
    place: u64,
    steps: &mut Vec<Step>,
) -> Result<(), AllocError>
    requires rows { IsRows rows.old.items }
    requires users { Reverse rows.old.items users.now }
    requires sound { IsSound rows.old.items }
    requires none { least leaving rows.old.items ≡ None }
    requires fits { place + 1024 < 2 ^ 64 }
    ensures runs { OnOk result ((first : List RowValue) (p : ℕ) → p + length steps.old.items ≡ place → Runs first p steps.old.items rows.old.items
        → Runs first p steps.new.items rows.new.items) }
    ensures rows { OnOk result (IsRows rows.new.items) }
    ensures sound { OnOk result (IsSound rows.new.items) }
    ensures ends { OnOk result (next_step rows.new.items ≡ None) }
    ensures since { IsSince changes.old.items rows.old.items changes.new.items rows.new.items }
{
    let mut near = near(alloc, &users.graph, rows)?;
    if are_quick(rows, &near, place) {
        start_quickly(alloc, rows, changes, users, &mut near, place, steps)?;
    } else {
        start_all(alloc, rows, changes, users, place, steps)?;
    }
    Ok(())
}

/// The steps from this place on, until nothing is leaving or due.
pub fn close_all(
    alloc: Global,
    rows: &mut Vec<Row>,
    changes: &mut Vec<Change>,
    place: u64,
) -> Result<Vec<Step>, AllocError>
    requires rows { IsRows rows.old.items }
    requires sound { IsSound rows.old.items }
    requires fits { place + 2048 < 2 ^ 64 }
    ensures closes { IfOk result (λ steps. Closes rows.old.items place steps.items rows.new.items) }
    ensures rows { OnOk result (IsRows rows.new.items) }
    ensures since { IsSince changes.old.items rows.old.items changes.new.items rows.new.items }
{
    let users = Users::new(alloc, rows)?;
    let mut steps = leave_all(alloc, rows, changes, &users)?;
    let start = place + steps.len() as u64;
    start_each(alloc, rows, changes, &users, start, &mut steps)?;
    Ok(steps)
}
