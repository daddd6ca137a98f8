//! Ascending numbers that are as they were at a mark again without memory.

ghost use Rattle.std.specs.Prelude.{ℕ, ◌<◌, ◌≤◌, length, vec_capacity};
ghost use Rattle.nb_index.specs.Numbers.{Ascends};

use std::alloc::{AllocError, Global};
use std::mem::swap;

/// Numbers, ascending and each once. From the first change after a mark on, those that were there at the mark are kept
/// beside them. Each of the two lists has room for what is in the other.
#[derive(Drop)]
pub struct Row {
    present: Vec<u32>,
    kept: Vec<u32>,
    touched: bool,
    ghost ascends: { Ascends present.items },
    ghost kept_ascends: { Ascends kept.items },
    ghost room_to_keep: { length present.items ≤ vec_capacity kept },
    ghost room_to_return: { length kept.items ≤ vec_capacity present },
}

impl Row {
    ghost use Rattle.std.specs.Prelude.{◌≡◌, ◌==◌, ◌&&◌, not, true, false, [], ◌∷◌, OnOk, OnErr};
    ghost use Rattle.nb_index.specs.Numbers.{has};
    ghost use Rattle.nb_index.specs.Rows.{present as present_in, marked as marked_in};

    /// No numbers, now and at the mark. It takes no memory.
    pub fn new(alloc: Global) -> Row
        ensures present { present_in result ≡ [] }
        ensures marked { marked_in result ≡ [] }
        ensures touched { result.touched ≡ false }
    {
        Row {
            present: Vec::new(alloc),
            kept: Vec::new(alloc),
            touched: false,
        }
    }

    /// The numbers, ascending and each once. It takes no memory.
    pub fn numbers(&self) -> &[u32]
        ensures numbers { result.now ≡ present_in self.now }
        ensures ascends { Ascends result.now }
    {
        &self.present
    }

    /// Whether what was there at the mark is kept apart.
    pub fn is_touched(&self) -> bool
        ensures { result ≡ self.now.touched }
    {
        self.touched
    }

    /// Keeps apart what is there, if a change comes for the first time since the mark. It takes no memory.
    pub fn touch(&mut self)
        ensures present { present_in self.new ≡ present_in self.old }
        ensures marked { marked_in self.new ≡ marked_in self.old }
        ensures touched { self.new.touched ≡ true }
    {
        if self.touched {
            return;
        }
        self.kept.clear();
        let _ = self.kept.extend_from_slice(&self.present);
        self.touched = true;
    }

    /// Puts a number among the others. It fails only without memory, and then nothing has changed.
    pub fn insert(&mut self, number: u32) -> Result<(), AllocError>
        requires { self.old.touched ≡ true }
        ensures ok { OnOk result ((x : ℕ) → has (present_in self.new) x ≡ has (number ∷ present_in self.old) x) }
        ensures err { OnErr result (present_in self.new ≡ present_in self.old) }
        ensures marked { marked_in self.new ≡ marked_in self.old }
        ensures touched { self.new.touched ≡ true }
    {
        if let Err(place) = self.present.binary_search(&number) {
            self.kept.reserve(self.present.len() + 1)?;
            self.present.insert(place, number)?;
        }
        Ok(())
    }

    /// Takes a number away, if it is there. It takes no memory.
    pub fn remove(&mut self, number: u32)
        requires { self.old.touched ≡ true }
        ensures present { (x : ℕ) → has (present_in self.new) x ≡ (not (number == x) && has (present_in self.old) x) }
        ensures marked { marked_in self.new ≡ marked_in self.old }
        ensures touched { self.new.touched ≡ true }
    {
        if let Ok(place) = self.present.binary_search(&number) {
            self.present.remove(place);
        }
    }

    /// From now on, an undo gives what is there now. It takes no memory.
    pub fn mark(&mut self)
        ensures present { present_in self.new ≡ present_in self.old }
        ensures marked { marked_in self.new ≡ present_in self.old }
        ensures touched { self.new.touched ≡ false }
    {
        self.touched = false;
    }

    /// What was there at the mark is there again. It takes no memory.
    pub fn undo(&mut self)
        ensures present { present_in self.new ≡ marked_in self.old }
        ensures marked { marked_in self.new ≡ marked_in self.old }
        ensures touched { self.new.touched ≡ false }
    {
        if self.touched {
            swap(&mut self.present, &mut self.kept);
            self.touched = false;
        }
    }
}
