//! What a step changes.

ghost use Rattle.std.specs.Prelude.{◌≡◌, ◌≤◌, ◌<◌, ◌^◌, cond, length, map, IfOk, OnOk};
ghost use Rattle.nb_wave.specs.Changes.{IsSince};
ghost use Rattle.nb_wave.specs.Users.{AreUsers};
ghost use Rattle.nb_wave.specs.Steps.{renumbered as renumbering, resting as rests, rested as resting_row, ended as ended_row, begun as begun_row, changed, stepped, is_at};

use crate::footing::Footing;
use crate::row::{Row, Vars};
use crate::table::{Change, replace};
use nb_value::Numbers;
use std::alloc::{AllocError, Global};

/// What a number becomes that belongs to the variable at `i`.
fn renumber_one(vars: &[u32], v: u32, n: u64, number: u64, i: usize) -> u64
    ensures { result ≡ cond (is_at vars.now v i) n number }
{
    if i < vars.len() && vars[i] == v {
        n
    } else {
        number
    }
}

/// Numbers that belong to variables, with those of `v` set to `n`.
fn renumber(
    alloc: Global,
    vars: &[u32],
    v: u32,
    n: u64,
    numbers: &[u64],
) -> Result<Vec<u64>, AllocError>
    ensures { IfOk result (λ new. new.items ≡ renumbering v n vars.now numbers.now) }
{
    let mut new = Vec::new(alloc);
    for i in 0..numbers.len() {
        new.push(renumber_one(vars, v, n, numbers[i], i))?;
    }
    Ok(new)
}

/// The same of a list of numbers.
fn renumbered(
    alloc: Global,
    vars: &[u32],
    v: u32,
    n: u64,
    numbers: &Numbers,
) -> Result<Numbers, AllocError>
    ensures { IfOk result (λ new. new ≡ renumbering v n vars.now numbers.now) }
{
    let items = renumber(alloc, vars, v, n, numbers.as_slice())?;
    Ok(Numbers::from_vec(items))
}

/// What a row rests on where the start number and renewal of `v` become `n`.
fn resting(alloc: Global, row: &Row, v: u32, n: u64) -> Result<Footing, AllocError>
    ensures { IfOk result (λ new. new ≡ rests v n row.now) }
{
    let old = &row.present;
    let vars = row.needs.as_slice();
    Ok(Footing {
        place: old.place,
        mark: old.mark,
        inputs: old.copy_inputs(alloc)?,
        starts: renumbered(alloc, vars, v, n, &old.starts)?,
        renewals: renumbered(alloc, vars, v, n, &old.renewals)?,
    })
}

/// A row where the start number and renewal of `v` become `n`.
fn rested(alloc: Global, row: &Row, v: u32, n: u64) -> Result<Row, AllocError>
    ensures { IfOk result (λ new. new ≡ resting_row v n row.now) }
{
    Ok(Row {
        wanted: row.wanted,
        later: row.later,
        present: resting(alloc, row, v, n)?,
        needs: Vars::from_slice(alloc, row.needs.as_slice())?,
        kept: row.copy_kept(alloc)?,
    })
}

/// A row that is idle.
fn ended(alloc: Global, row: &Row) -> Result<Row, AllocError>
    ensures { IfOk result (λ new. new ≡ ended_row row.now) }
{
    Ok(Row {
        wanted: row.wanted,
        later: false,
        present: row.present.copy(alloc)?,
        needs: Vars::from_slice(alloc, row.needs.as_slice())?,
        kept: None,
    })
}

/// A row with a new start, which keeps the footing of now.
fn begun(alloc: Global, row: &Row) -> Result<Row, AllocError>
    ensures { IfOk result (λ new. new ≡ begun_row row.now) }
{
    Ok(Row {
        wanted: row.wanted,
        later: false,
        present: row.present.copy(alloc)?,
        needs: Vars::from_slice(alloc, row.needs.as_slice())?,
        kept: Some(row.present.copy(alloc)?),
    })
}

/// Sets the start number and renewal of `v` to `n` in the row at `u`.
fn rest_one(
    alloc: Global,
    rows: &mut Vec<Row>,
    changes: &mut Vec<Change>,
    u: u32,
    v: u32,
    n: u64,
) -> Result<(), AllocError>
    requires { u < length rows.old.items }
    ensures ok { OnOk result (rows.new.items ≡ changed (resting_row v n) u rows.old.items) }
    ensures since { IsSince changes.old.items rows.old.items changes.new.items rows.new.items }
{
    let row = rested(alloc, &rows[u as usize], v, n)?;
    replace(rows, changes, u, row)?;
    Ok(())
}

/// Sets the start number and renewal of `v` to `n` for all that need it, in one pass over what those need.
fn rest_all(
    alloc: Global,
    rows: &mut Vec<Row>,
    changes: &mut Vec<Change>,
    users: &[u32],
    v: u32,
    n: u64,
) -> Result<(), AllocError>
    requires { AreUsers rows.old.items v users.now }
    ensures ok { OnOk result (rows.new.items ≡ map (resting_row v n) rows.old.items) }
    ensures since { IsSince changes.old.items rows.old.items changes.new.items rows.new.items }
{
    for u in users {
        rest_one(alloc, rows, changes, *u, v, n)?;
    }
    Ok(())
}

/// Makes a variable idle, where those that need it directly are known.
pub fn leave(
    alloc: Global,
    rows: &mut Vec<Row>,
    changes: &mut Vec<Change>,
    users: &[u32],
    v: u32,
) -> Result<(), AllocError>
    requires row { v < length rows.old.items }
    requires users { AreUsers rows.old.items v users.now }
    ensures ok { OnOk result (rows.new.items ≡ stepped ended_row v 0 rows.old.items) }
    ensures since { IsSince changes.old.items rows.old.items changes.new.items rows.new.items }
{
    let row = ended(alloc, &rows[v as usize])?;
    replace(rows, changes, v, row)?;
    rest_all(alloc, rows, changes, users, v, 0)?;
    Ok(())
}

/// Starts a variable at a place, where those that need it directly are known.
pub fn begin(
    alloc: Global,
    rows: &mut Vec<Row>,
    changes: &mut Vec<Change>,
    users: &[u32],
    v: u32,
    place: u64,
) -> Result<(), AllocError>
    requires row { v < length rows.old.items }
    requires users { AreUsers rows.old.items v users.now }
    ensures ok { OnOk result (rows.new.items ≡ stepped begun_row v place rows.old.items) }
    ensures since { IsSince changes.old.items rows.old.items changes.new.items rows.new.items }
{
    let row = begun(alloc, &rows[v as usize])?;
    replace(rows, changes, v, row)?;
    rest_all(alloc, rows, changes, users, v, place)?;
    Ok(())
}
