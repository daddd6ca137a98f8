ghost use Rattle.std.specs.Prelude.{◌≡◌, ◌≤◌, ◌<◌, ◌+◌, ◌^◌, ℕ, true, false, None, length, replicate, option_copied, IfOk, IfNone, OnOk, OnErr};
ghost use Rattle.nb_graph.specs.Needs.{has};
ghost use Rattle.nb_wave.specs.Rules.{passes, is_behind, leaving, due, least, may_start, IsSound, NeedsVariables};
ghost use Rattle.nb_wave.specs.Steps.{changed, Closes};
ghost use Rattle.nb_wave.specs.Wave.{no_rows, unput, put_row, kept_row, kept_of, IsNumber, IsAsMany, IsRows};

use crate::closing::close_all;
use crate::due;
use crate::footing::Footing;
use crate::row::{Row, Vars};
use crate::step::Step;
use crate::table::{Change, replace, roll_back};
use std::alloc::{AllocError, Global};
use std::marker::Model;

/// What is known of each variable, from 1 to 1,024: whether it is wanted, what it rests on now, and what its start
/// rests on. It keeps what was replaced since the last mark.
#[derive(Drop)]
pub struct Wave {
    alloc: Global,
    rows: Vec<Row>,
    changes: Vec<Change>,
}

impl Model for Wave {
    ghost use Rattle.nb_wave.specs.Changes.{put_back};
    ghost use Rattle.nb_wave.specs.Wave.{Wave as WaveValue, IsWave};

    ghost Value = { WaveValue };

    ghost view = { λ w. record { rows = w.rows.items; marked = put_back w.changes.items w.rows.items } };

    ghost invariant = { λ w. IsWave w.rows.items w.changes.items };
}

/// Rows of variables that were never put.
fn unput_rows(alloc: Global, n: usize) -> Result<Vec<Row>, AllocError>
    ensures { IfOk result (λ rows. rows.items ≡ replicate n unput) }
{
    let mut rows = Vec::new(alloc);
    for _v in 0..n {
        rows.push(Row::unput(alloc))?;
    }
    Ok(rows)
}

/// The row of a variable that is put, whose start stays as it is in the old row.
fn put_over(
    alloc: Global,
    old: &Row,
    wanted: bool,
    later: bool,
    present: Footing,
    needs: &[u32],
) -> Result<Row, AllocError>
    ensures { IfOk result (λ row. row ≡ put_row wanted later present needs.now old.now) }
{
    let kept = old.copy_kept(alloc)?;
    let needs = Vars::from_slice(alloc, needs)?;
    Ok(Row {
        wanted,
        later,
        present,
        needs,
        kept,
    })
}

/// A row with a start that rests on this.
fn keep_over(alloc: Global, old: &Row, kept: Footing) -> Result<Row, AllocError>
    ensures { IfOk result (λ row. row ≡ kept_row kept old.now) }
{
    Ok(Row {
        wanted: old.wanted,
        later: old.later,
        present: old.present.copy(alloc)?,
        needs: Vars::from_slice(alloc, old.needs.as_slice())?,
        kept: Some(kept),
    })
}

impl Wave {
    /// No variable is wanted, and all are idle. It fails only without memory.
    pub fn new(alloc: Global) -> Result<Wave, AllocError>
        ensures rows { IfOk result (λ wave. wave.rows ≡ no_rows) }
        ensures marked { IfOk result (λ wave. wave.marked ≡ no_rows) }
    {
        let rows = unput_rows(alloc, 1025)?;
        Ok(Wave {
            alloc,
            rows,
            changes: Vec::new(alloc),
        })
    }

    /// Says of a variable whether it is wanted, whether it runs at a second or later pull, what it rests on now and what
    /// it needs directly. Its start stays. It fails only without memory, and then nothing has changed.
    pub fn put(
        &mut self,
        var: u32,
        wanted: bool,
        later: bool,
        now: Footing,
        needs: &[u32],
    ) -> Result<(), AllocError>
        requires var { IsNumber var }
        requires needs { (u : ℕ) → has needs.now u ≡ true → IsNumber u }
        requires each { IsAsMany now needs.now }
        ensures ok { OnOk result (self.new.rows ≡ changed (put_row wanted later now needs.now) var self.old.rows) }
        ensures marked { OnOk result (self.new.marked ≡ self.old.marked) }
        ensures err { OnErr result (self.new ≡ self.old) }
    {
        let row = put_over(
            self.alloc,
            &self.rows[var as usize],
            wanted,
            later,
            now,
            needs,
        )?;
        replace(&mut self.rows, &mut self.changes, var, row)?;
        Ok(())
    }

    /// Says of a variable what its start rests on, which so isn't idle. All else stays. It fails only without memory, and
    /// then nothing has changed.
    pub fn keep(&mut self, var: u32, kept: Footing) -> Result<(), AllocError>
        requires var { IsNumber var }
        ensures ok { OnOk result (self.new.rows ≡ changed (kept_row kept) var self.old.rows) }
        ensures marked { OnOk result (self.new.marked ≡ self.old.marked) }
        ensures err { OnErr result (self.new ≡ self.old) }
    {
        let row = keep_over(self.alloc, &self.rows[var as usize], kept)?;
        replace(&mut self.rows, &mut self.changes, var, row)?;
        Ok(())
    }

    /// What a variable's start rests on, none while it is idle. It takes no memory.
    pub fn kept(&self, var: u32) -> Option<&Footing>
        requires { IsNumber var }
        ensures { option_copied result ≡ kept_of self.now.rows var }
    {
        self.rows[var as usize].kept()
    }

    /// Whether a variable is idle, or its footing now isn't the kept one. There is a row for each variable, always. It
    /// takes no memory.
    pub fn behind(&self, var: u32) -> bool
        requires { IsNumber var }
        ensures value { result ≡ passes is_behind self.now.rows var }
        ensures rows { IsRows self.now.rows }
    {
        self.rows[var as usize].is_behind()
    }

    /// The least variable that is leaving: it isn't wanted, and isn't idle. It takes no memory.
    pub fn next_leaving(&self) -> Option<u32>
        ensures value { result ≡ least leaving self.now.rows }
        ensures none { IfNone result ((v : ℕ) → 1 ≤ v → leaving self.now.rows v ≡ false) }
    {
        due::next_leaving(&self.rows)
    }

    /// The least variable that may start. It takes no memory, and time for a pass over variables and needs for each step
    /// of the longest chain of needs.
    pub fn next_due(&self) -> Option<u32>
        requires { IsSound self.now.rows }
        ensures value { result ≡ least may_start self.now.rows }
        ensures none { IfNone result ((v : ℕ) → 1 ≤ v → due self.now.rows v ≡ false) }
    {
        due::next_due(&self.rows)
    }

    /// The steps in their order, the first at this place: the least variable that is leaving becomes idle, and where none
    /// is, the least that may start does, until nothing is leaving or due. Each step takes a few passes over variables
    /// and needs, however long the chains of needs are. It fails only without memory, and then nothing has changed.
    pub fn close(&mut self, place: u64) -> Result<Vec<Step>, AllocError>
        requires sound { IsSound self.old.rows }
        requires fits { place + 2048 < 2 ^ 64 }
        ensures closes { IfOk result (λ steps. Closes self.old.rows place steps.items self.new.rows) }
        ensures marked { self.new.marked ≡ self.old.marked }
        ensures err { OnErr result (self.new ≡ self.old) }
    {
        let n = self.changes.len();
        match close_all(self.alloc, &mut self.rows, &mut self.changes, place) {
            Ok(steps) => Ok(steps),
            Err(refused) => {
                roll_back(&mut self.rows, &mut self.changes, n);
                Err(refused)
            }
        }
    }

    /// From now on, an undo gives what the wave is now. It takes no memory.
    pub fn mark(&mut self)
        ensures rows { self.new.rows ≡ self.old.rows }
        ensures marked { self.new.marked ≡ self.old.rows }
    {
        self.changes.clear();
    }

    /// The wave is as it was at the last mark, or as it was made if there was none. It takes no memory.
    pub fn undo(&mut self)
        ensures rows { self.new.rows ≡ self.old.marked }
        ensures marked { self.new.marked ≡ self.old.marked }
    {
        roll_back(&mut self.rows, &mut self.changes, 0);
    }
}
