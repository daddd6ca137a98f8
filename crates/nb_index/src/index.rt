//! The index of names and links.

ghost use Rattle.std.specs.Prelude.{ℕ, ◌≤◌, length};
ghost use Rattle.nb_index.specs.Keys.{NamedBelow};

use crate::found::Found;
use crate::keys::{add_name, add_place, add_source, name_number, place_number, source_number};
use crate::table::Table;
use indexmap::IndexSet;
use std::alloc::{AllocError, Global};

/// Triples of a module, a name and a variable, and links from a number to a number, each once; and both as they were at
/// the last mark. A module's names and the numbers that links go from stay numbered once they were there, so that what was
/// taken away is there again without memory.
#[derive(Drop)]
pub struct Index {
    alloc: Global,
    names: IndexSet<String>,
    places: IndexSet<(u32, usize)>,
    holders: Table,
    sources: IndexSet<u32>,
    targets: Table,
    ghost named: { NamedBelow (length names.keys) places.keys },
    ghost holders_few: { length holders.rows.items ≤ length places.keys },
    ghost targets_few: { length targets.rows.items ≤ length sources.keys },
}

impl Index {
    ghost use Rattle.std.specs.Prelude.{◌≡◌, false, IfOk, OnOk, OnErr, IsOk};
    ghost use Rattle.nb_index.specs.Numbers.{has, Ascends};
    ghost use Rattle.nb_index.specs.Contents.{IsEmpty, Same, Gains, Loses, Links, Unlinks, IsFound};
    ghost use Rattle.nb_index.specs.Index.{place_of, contents, marked};

    /// Nothing, now and at the mark. It takes no memory yet.
    pub fn new(alloc: Global) -> Result<Index, AllocError>
        ensures succeeds { IsOk result }
        ensures contents { IfOk result (λ index. IsEmpty (contents index)) }
        ensures marked { IfOk result (λ index. IsEmpty (marked index)) }
    {
        Ok(Index {
            alloc,
            names: IndexSet::new(alloc),
            places: IndexSet::new(alloc),
            holders: Table::new(alloc),
            sources: IndexSet::new(alloc),
            targets: Table::new(alloc),
        })
    }

    /// The row of a module and a name.
    fn place(&self, module: u32, name: &str) -> usize
        ensures { result ≡ place_of self.now «module» name.now }
    {
        place_number(&self.places, (module, name_number(&self.names, name)))
    }

    /// Puts a triple that isn't there. It takes constant time and that for the holders of the name. It fails only without
    /// memory, and then nothing has changed.
    pub fn put(&mut self, module: u32, name: &str, var: u32) -> Result<(), AllocError>
        requires { (contents self.old).triples «module» name.now var ≡ false }
        ensures ok { OnOk result (Gains «module» name.now var (contents self.old) (contents self.new)) }
        ensures err { OnErr result (Same (contents self.old) (contents self.new)) }
        ensures marked { Same (marked self.old) (marked self.new) }
    {
        let number = add_name(self.alloc, &mut self.names, name)?;
        let place = add_place(&mut self.places, (module, number))?;
        self.holders.insert(place, var)
    }

    /// Takes a triple away, if it is there. It takes no memory, and constant time and that for the holders of the name.
    pub fn take(&mut self, module: u32, name: &str, var: u32)
        ensures loses { Loses «module» name.now var (contents self.old) (contents self.new) }
        ensures marked { Same (marked self.old) (marked self.new) }
    {
        let place = self.place(module, name);
        self.holders.remove(place, var);
    }

    /// Whether nobody, exactly one variable or more than one has a name in a module. It takes no memory and constant time.
    pub fn find(&self, module: u32, name: &str) -> Found
        ensures { IsFound ((contents self.now).triples «module» name.now) result }
    {
        match self.holders.numbers(self.place(module, name)) {
            [] => Found::Nobody,
            [var] => Found::One(*var),
            _ => Found::Many,
        }
    }

    /// Puts a link, if it isn't there. It takes constant time and that for the outputs of `from`. It fails only without
    /// memory, and then nothing has changed.
    pub fn link(&mut self, from: u32, to: u32) -> Result<(), AllocError>
        ensures ok { OnOk result (Links from to (contents self.old) (contents self.new)) }
        ensures err { OnErr result (Same (contents self.old) (contents self.new)) }
        ensures marked { Same (marked self.old) (marked self.new) }
    {
        let source = add_source(&mut self.sources, from)?;
        self.targets.insert(source, to)
    }

    /// Takes a link away, if it is there. It takes no memory, and constant time and that for the outputs of `from`.
    pub fn unlink(&mut self, from: u32, to: u32)
        ensures unlinks { Unlinks from to (contents self.old) (contents self.new) }
        ensures marked { Same (marked self.old) (marked self.new) }
    {
        let source = source_number(&self.sources, from);
        self.targets.remove(source, to);
    }

    /// The numbers to which links go from this one, ascending and each once. It takes no memory and constant time.
    pub fn outputs(&self, from: u32) -> &[u32]
        ensures links { (to : ℕ) → has result.now to ≡ (contents self.now).links from to }
        ensures ascends { Ascends result.now }
    {
        self.targets.numbers(source_number(&self.sources, from))
    }

    /// From now on, an undo gives what is there now. It takes no memory, and time for the names and numbers that changed
    /// since the last mark.
    pub fn mark(&mut self)
        ensures contents { Same (contents self.old) (contents self.new) }
        ensures marked { Same (contents self.old) (marked self.new) }
    {
        self.holders.mark();
        self.targets.mark();
    }

    /// What was there at the last mark, or nothing if there was none, is there again. It takes no memory, and time for the
    /// names and numbers that changed since.
    pub fn undo(&mut self)
        ensures contents { Same (marked self.old) (contents self.new) }
        ensures marked { Same (marked self.old) (marked self.new) }
    {
        self.holders.undo();
        self.targets.undo();
    }
}
