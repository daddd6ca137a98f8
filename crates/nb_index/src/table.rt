//! Rows of numbers by number, and which of them changed since a mark.

ghost use Rattle.std.specs.Prelude.{ℕ, ◌≡◌, ◌+◌, ◌<◌, ◌≤◌, true, length, vec_capacity};
ghost use Rattle.nb_index.specs.Numbers.{has, Ascends};
ghost use Rattle.nb_index.specs.Rows.{present_at, marked_at, touched_at, untouched};

use crate::row::Row;
use std::alloc::{AllocError, Global};

/// Rows of numbers from 0 on, and the list of those that changed since the last mark, which has room for all the others.
/// A row past the last is empty.
#[derive(Drop)]
pub struct Table {
    alloc: Global,
    rows: Vec<Row>,
    touched: Vec<usize>,
    ghost listed: { (r : ℕ) → touched_at rows.items r ≡ true → has touched.items r ≡ true },
    ghost inside: { (r : ℕ) → has touched.items r ≡ true → r < length rows.items },
    ghost room: { untouched rows.items + length touched.items ≤ vec_capacity touched },
}

impl Table {
    ghost use Rattle.std.specs.Prelude.{[], ◌∷◌, max, OnOk, OnErr};
    ghost use Rattle.nb_index.specs.Table.{row as row_in, marked_row, SameRows, Gains, Loses};

    /// No rows. It takes no memory.
    pub fn new(alloc: Global) -> Table
        ensures { result.rows.items ≡ [] }
    {
        Table {
            alloc,
            rows: Vec::new(alloc),
            touched: Vec::new(alloc),
        }
    }

    /// The numbers in a row, ascending and each once. It takes no memory.
    pub fn numbers(&self, r: usize) -> &[u32]
        ensures numbers { result.now ≡ row_in self.now r }
        ensures ascends { Ascends result.now }
    {
        match self.rows.get(r) {
            Some(row) => row.numbers(),
            None => &[],
        }
    }

    /// Adds an empty row. It fails only without memory, and then nothing has changed.
    fn add_row(&mut self) -> Result<(), AllocError>
        ensures ok { OnOk result (length self.new.rows.items ≡ length self.old.rows.items + 1) }
        ensures err { OnErr result (length self.new.rows.items ≡ length self.old.rows.items) }
        ensures present { SameRows (row_in self.old) (row_in self.new) }
        ensures marked { SameRows (marked_row self.old) (marked_row self.new) }
    {
        self.touched.reserve(self.rows.len() + 1)?;
        self.rows.push(Row::new(self.alloc))?;
        Ok(())
    }

    /// Adds empty rows until there is one of this number. It fails only without memory; the rows that it added stay.
    fn grow(&mut self, r: usize) -> Result<(), AllocError>
        ensures ok { OnOk result (r < length self.new.rows.items) }
        ensures few { length self.new.rows.items ≤ max (length self.old.rows.items) (r + 1) }
        ensures present { SameRows (row_in self.old) (row_in self.new) }
        ensures marked { SameRows (marked_row self.old) (marked_row self.new) }
    {
        while self.rows.len() <= r {
            self.add_row()?;
        }
        Ok(())
    }

    /// Keeps apart what is in a row, if it changes for the first time since the mark. It takes no memory.
    fn touch(&mut self, r: usize)
        requires { r < length self.old.rows.items }
        ensures touched { touched_at self.new.rows.items r ≡ true }
        ensures len { length self.new.rows.items ≡ length self.old.rows.items }
        ensures present { SameRows (row_in self.old) (row_in self.new) }
        ensures marked { SameRows (marked_row self.old) (marked_row self.new) }
    {
        if !self.rows[r].is_touched() {
            self.rows[r].touch();
            self.touched.push_reserved(r);
        }
    }

    /// Puts a number into a row. It fails only without memory, and then nothing has changed.
    pub fn insert(&mut self, r: usize, number: u32) -> Result<(), AllocError>
        ensures ok { OnOk result (Gains r number (row_in self.old) (row_in self.new)) }
        ensures err { OnErr result (SameRows (row_in self.old) (row_in self.new)) }
        ensures marked { SameRows (marked_row self.old) (marked_row self.new) }
        ensures few { length self.new.rows.items ≤ max (length self.old.rows.items) (r + 1) }
    {
        self.grow(r)?;
        self.touch(r);
        self.rows[r].insert(number)
    }

    /// Takes a number out of a row, if it is there. It takes no memory.
    pub fn remove(&mut self, r: usize, number: u32)
        ensures loses { Loses r number (row_in self.old) (row_in self.new) }
        ensures marked { SameRows (marked_row self.old) (marked_row self.new) }
        ensures len { length self.new.rows.items ≡ length self.old.rows.items }
    {
        if r < self.rows.len() {
            self.touch(r);
            self.rows[r].remove(number);
        }
    }

    /// From now on, an undo gives what the rows are now. It takes no memory.
    pub fn mark(&mut self)
        ensures present { SameRows (row_in self.old) (row_in self.new) }
        ensures marked { SameRows (row_in self.old) (marked_row self.new) }
        ensures len { length self.new.rows.items ≡ length self.old.rows.items }
    {
        while let Some(r) = self.touched.pop() {
            self.rows[r].mark();
        }
    }

    /// The rows are as they were at the mark. It takes no memory.
    pub fn undo(&mut self)
        ensures present { SameRows (marked_row self.old) (row_in self.new) }
        ensures marked { SameRows (marked_row self.old) (marked_row self.new) }
        ensures len { length self.new.rows.items ≡ length self.old.rows.items }
    {
        while let Some(r) = self.touched.pop() {
            self.rows[r].undo();
        }
    }
}
