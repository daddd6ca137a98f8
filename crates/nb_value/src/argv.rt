ghost use Rattle.std.specs.Prelude.{◌≡◌, ◌↔◌, IfOk, IsTrue};

use crate::text::Text;
use crate::tree::Tree;
use std::alloc::{AllocError, Global};
use std::marker::Model;

/// The words that start a program, its name first, which contracts see as the list of their bytes.
#[derive(Debug, Drop)]
pub struct Argv {
    items: Vec<Text>,
}

impl Model for Argv {
    ghost use Rattle.std.specs.Prelude.{List, ℕ};

    ghost Value = { List (List ℕ) };

    ghost view = { λ a. a.items.items };
}

impl Argv {
    /// The words in this order.
    pub fn from_vec(items: Vec<Text>) -> Argv
        ensures { result ≡ items.items }
    {
        Argv { items }
    }

    /// The words in their order.
    pub fn as_slice(&self) -> &[Text]
        ensures { result.now ≡ self.now }
    {
        &self.items
    }

    /// An equal list, in time and memory linear in the bytes of the words. It fails only without memory.
    pub fn copy(&self, alloc: Global) -> Result<Argv, AllocError>
        ensures { IfOk result (λ a. a ≡ self.now) }
    {
        let mut items = Vec::new(alloc);
        for word in &self.items {
            items.push(word.copy(alloc)?)?;
        }
        Ok(Argv { items })
    }

    /// Whether the two have the same words in the same order. It takes no memory, and time linear in the bytes.
    pub fn same(&self, other: &Argv) -> bool
        ensures { IsTrue result ↔ (self.now ≡ other.now) }
    {
        let words = self.as_slice();
        let others = other.as_slice();
        if words.len() != others.len() {
            return false;
        }
        for i in 0..words.len() {
            if !words[i].same(&others[i]) {
                return false;
            }
        }
        true
    }
}

impl Tree for Argv {
    fn copy(&self, alloc: Global) -> Result<Argv, AllocError> {
        Argv::copy(self, alloc)
    }

    fn same(&self, other: &Argv) -> bool {
        Argv::same(self, other)
    }
}
