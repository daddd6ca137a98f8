ghost use Rattle.std.specs.Prelude.{◌≡◌, IsTrue, ◌↔◌, Contains};

use std::marker::Model;

/// A list of numbers of 64 bits, such as those of the calls that fail.
#[derive(Debug, Drop)]
pub struct Numbers {
    items: Vec<u64>,
}

impl Model for Numbers {
    ghost use Rattle.std.specs.Prelude.{List, ℕ};

    ghost Value = { List ℕ };

    ghost view = { λ n. n.items.items };
}

impl Numbers {
    /// The numbers in this order.
    pub fn from_vec(items: Vec<u64>) -> Numbers
        ensures { result ≡ items.items }
    {
        Numbers { items }
    }

    /// The numbers in their order.
    pub fn as_slice(&self) -> &[u64]
        ensures { result.now ≡ self.now }
    {
        &self.items
    }

    /// Whether the number is in the list, in time linear in the list.
    pub fn contains(&self, number: u64) -> bool
        ensures { IsTrue result ↔ Contains self.now number }
    {
        self.items.contains(&number)
    }
}
