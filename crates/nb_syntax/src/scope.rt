//! The names that are in scope at a place of a cell.

ghost use Rattle.std.specs.Prelude.{◌≡◌, [], ◌∷◌, ◌++◌, length, take, map, OnOk, OnErr};
ghost use Rattle.nb_syntax.specs.FreeNames.{has_name};

use nb_value::Text;
use std::alloc::{AllocError, Global};
use std::marker::Model;

/// The names of the `let`s and `for`s in whose scope a place stands, the innermost last. Contracts see the list of
/// their bytes.
#[derive(Drop)]
pub(crate) struct Scope<'a> {
    names: Vec<&'a Text>,
}

impl<'a> Model for Scope<'a> {
    ghost use Rattle.std.specs.Prelude.{List, ℕ, map};

    ghost Value = { List (List ℕ) };

    ghost view = { λ s. map (λ t. t.now) s.names.items };
}

impl<'a> Scope<'a> {
    /// No names. It takes no memory yet.
    pub(crate) fn new(alloc: Global) -> Scope<'a>
        ensures { result ≡ [] }
    {
        Scope {
            names: Vec::new(alloc),
        }
    }

    /// The number of names.
    pub(crate) fn len(&self) -> usize
        ensures { result ≡ length self.now }
    {
        self.names.len()
    }

    /// Whether the name is among them, in time linear in their bytes.
    pub(crate) fn has(&self, name: &Text) -> bool
        ensures { result ≡ has_name name.now self.now }
    {
        for known in &self.names {
            if known.as_str() == name.as_str() {
                return true;
            }
        }
        false
    }

    /// Adds a name as the innermost.
    pub(crate) fn push(&mut self, name: &'a Text) -> Result<(), AllocError>
        ensures ok { OnOk result (self.new ≡ self.old ++ name.now ∷ []) }
        ensures err { OnErr result (self.new ≡ self.old) }
    {
        self.names.push(name)?;
        Ok(())
    }

    /// Leaves the outermost names, this many.
    pub(crate) fn truncate(&mut self, len: usize)
        ensures { self.new ≡ take len self.old }
    {
        self.names.truncate(len);
    }
}
