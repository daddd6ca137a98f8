//! Rows by number, and those that others took the place of.

ghost use Rattle.std.specs.Prelude.{◌≡◌, ◌<◌, ◌≤◌, length, take, drop, set, get_or, Some, OnOk, OnErr, slice_get};
ghost use Rattle.nb_wave.specs.Changes.{put_back, IsSince};

use crate::row::Row;
use std::alloc::AllocError;
use std::mem::{drop, replace as exchange, swap};

/// A row that another took the place of.
#[derive(Drop)]
pub struct Change {
    pub var: u32,
    pub row: Row,
}

/// Puts a change's row where it belongs, and keeps the one that was there.
fn swap_in(rows: &mut Vec<Row>, v: u32, change: &mut Change)
    requires { v < length rows.old.items }
    ensures rows { rows.new.items ≡ set rows.old.items v change.old.row }
    ensures row { change.new.row ≡ get_or rows.old.items v change.new.row }
    ensures var { change.new.var ≡ change.old.var }
{
    swap(&mut rows[v as usize], &mut change.row);
}

/// Puts a row in the place of v's, which is kept. It fails only without memory, and then nothing has changed.
pub fn replace(
    rows: &mut Vec<Row>,
    changes: &mut Vec<Change>,
    v: u32,
    row: Row,
) -> Result<(), AllocError>
    requires { v < length rows.old.items }
    ensures ok { OnOk result (rows.new.items ≡ set rows.old.items v row) }
    ensures err { OnErr result (rows.new.items ≡ rows.old.items) }
    ensures same { OnErr result (changes.new.items ≡ changes.old.items) }
    ensures since { IsSince changes.old.items rows.old.items changes.new.items rows.new.items }
{
    changes.reserve(1)?;
    let mut change = Change { var: v, row };
    swap_in(rows, v, &mut change);
    changes.push_reserved(change);
    Ok(())
}

/// Puts a row back, if there is one of its number.
fn put_back_one(rows: &mut Vec<Row>, change: Change)
    ensures { rows.new.items ≡ set rows.old.items change.var change.row }
{
    let Change { var, row } = change;
    if (var as usize) < rows.len() {
        drop(exchange(&mut rows[var as usize], row));
    } else {
        drop(row);
    }
}

/// Puts the rows back that were replaced after the first `n` changes, the last first. It takes no memory.
pub fn roll_back(rows: &mut Vec<Row>, changes: &mut Vec<Change>, n: usize)
    ensures rows { rows.new.items ≡ put_back (drop n changes.old.items) rows.old.items }
    ensures changes { changes.new.items ≡ take n changes.old.items }
{
    while changes.len() > n {
        if let Some(change) = changes.pop() {
            put_back_one(rows, change);
        }
    }
}
