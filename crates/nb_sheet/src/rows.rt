//! Changes of the rows of a sheet, and what they took the place of.

ghost use Rattle.std.specs.Prelude.{◌≡◌, ◌<◌, ◌≤◌, ◌++◌, ◌∷◌, [], length, set, get_or, OnOk, OnErr, IfOk};
ghost use Rattle.nb_sheet.specs.Changes.{put_back, GiveTheSame};
ghost use Rattle.nb_sheet.specs.Scan.{changed, redefined_by};
ghost use Rattle.nb_sheet.specs.Sheet.{defined_by, undefined};

use crate::row::{BodyOf, VarRow};
use nb_syntax::Cell;
use nb_value::{Text, Tree};
use std::alloc::{AllocError, Global};
use std::mem::{drop, replace as exchange, swap};

/// A row that another took the place of, with its place, counted from 0.
#[derive(Drop)]
pub struct Change {
    pub at: u32,
    pub row: VarRow,
}

/// Adds a row.
pub fn add(rows: &mut Vec<VarRow>, row: VarRow) -> Result<(), AllocError>
    ensures ok { OnOk result (rows.new.items ≡ rows.old.items ++ row ∷ []) }
    ensures err { OnErr result (rows.new.items ≡ rows.old.items) }
{
    rows.push(row)?;
    Ok(())
}

/// Puts a change's row where it belongs, and keeps the one that was there.
fn swap_in(rows: &mut Vec<VarRow>, at: u32, change: &mut Change)
    requires { at < length rows.old.items }
    ensures rows { rows.new.items ≡ set rows.old.items at change.old.row }
    ensures row { change.new.row ≡ get_or rows.old.items at change.new.row }
    ensures at { change.new.at ≡ change.old.at }
{
    swap(&mut rows[at as usize], &mut change.row);
}

/// Puts a row in the place of another, which is kept. It fails only without memory, and then nothing has changed.
fn replace(
    rows: &mut Vec<VarRow>,
    changes: &mut Vec<Change>,
    at: u32,
    row: VarRow,
) -> Result<(), AllocError>
    requires { at < length rows.old.items }
    ensures ok { OnOk result (rows.new.items ≡ set rows.old.items at row) }
    ensures err { OnErr result (rows.new.items ≡ rows.old.items) }
    ensures back { GiveTheSame changes.old.items rows.old.items changes.new.items rows.new.items }
{
    changes.reserve(1)?;
    let mut change = Change { at, row };
    swap_in(rows, at, &mut change);
    changes.push_reserved(change);
    Ok(())
}

/// Puts a row back, if there is one at its place.
fn put_back_one(rows: &mut Vec<VarRow>, change: Change)
    ensures { rows.new.items ≡ set rows.old.items change.at change.row }
{
    let Change { at, row } = change;
    if (at as usize) < rows.len() {
        drop(exchange(&mut rows[at as usize], row));
    } else {
        drop(row);
    }
}

/// Puts the rows back that were replaced, the last first. It takes no memory.
pub fn roll_back(rows: &mut Vec<VarRow>, changes: &mut Vec<Change>)
    ensures rows { rows.new.items ≡ put_back changes.old.items rows.old.items }
    ensures changes { changes.new.items ≡ [] }
{
    while let Some(change) = changes.pop() {
        put_back_one(rows, change);
    }
}

/// A row with another name and body.
fn defined(row: &VarRow, name: Option<Text>, body: BodyOf, place: u64) -> VarRow
    ensures { result ≡ defined_by name body place row.now }
{
    VarRow {
        module: row.module,
        observed: row.observed,
        name,
        body: Some(body),
        place,
    }
}

/// A row without name and body.
fn without_body(row: &VarRow) -> VarRow
    ensures { result ≡ undefined row.now }
{
    VarRow {
        module: row.module,
        observed: row.observed,
        name: None,
        body: None,
        place: 0,
    }
}

/// A row with another body, under its name.
fn redefined(row: &VarRow, alloc: Global, cell: Cell, place: u64) -> Result<VarRow, AllocError>
    ensures { IfOk result (λ new. new ≡ redefined_by cell place row.now) }
{
    let name = row.name.copy(alloc)?;
    Ok(VarRow {
        module: row.module,
        observed: row.observed,
        name,
        body: Some(BodyOf::Cell(cell)),
        place,
    })
}

/// Gives a variable's row a name and a body.
pub fn define(
    rows: &mut Vec<VarRow>,
    changes: &mut Vec<Change>,
    variable: u32,
    name: Option<Text>,
    body: BodyOf,
    place: u64,
) -> Result<(), AllocError>
    requires { (0 < variable) × (variable ≤ length rows.old.items) }
    ensures ok { OnOk result (rows.new.items ≡ changed rows.old.items variable (defined_by name body place)) }
    ensures err { OnErr result (rows.new.items ≡ rows.old.items) }
    ensures back { GiveTheSame changes.old.items rows.old.items changes.new.items rows.new.items }
{
    let row = defined(&rows[variable as usize - 1], name, body, place);
    replace(rows, changes, variable - 1, row)?;
    Ok(())
}

/// Takes the name and body of a variable's row away.
pub fn undefine(
    rows: &mut Vec<VarRow>,
    changes: &mut Vec<Change>,
    variable: u32,
) -> Result<(), AllocError>
    requires { (0 < variable) × (variable ≤ length rows.old.items) }
    ensures ok { OnOk result (rows.new.items ≡ changed rows.old.items variable undefined) }
    ensures err { OnErr result (rows.new.items ≡ rows.old.items) }
    ensures back { GiveTheSame changes.old.items rows.old.items changes.new.items rows.new.items }
{
    let row = without_body(&rows[variable as usize - 1]);
    replace(rows, changes, variable - 1, row)?;
    Ok(())
}

/// Gives a variable's row another body.
pub fn redefine(
    alloc: Global,
    rows: &mut Vec<VarRow>,
    changes: &mut Vec<Change>,
    variable: u32,
    cell: Cell,
    place: u64,
) -> Result<(), AllocError>
    requires { (0 < variable) × (variable ≤ length rows.old.items) }
    ensures ok { OnOk result (rows.new.items ≡ changed rows.old.items variable (redefined_by cell place)) }
    ensures err { OnErr result (rows.new.items ≡ rows.old.items) }
    ensures back { GiveTheSame changes.old.items rows.old.items changes.new.items rows.new.items }
{
    let row = redefined(&rows[variable as usize - 1], alloc, cell, place)?;
    replace(rows, changes, variable - 1, row)?;
    Ok(())
}
