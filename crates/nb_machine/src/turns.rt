ghost use Rattle.std.specs.Prelude.{◌≡◌, ◌∷◌, ◌↔◌, [], IsTrue, Some, None, Ok, OnErr};

use nb_value::{Items, Value};
use std::alloc::{AllocError, Global};
use std::marker::Model;

/// The values of a `for`, which contracts see as the list of those that are left.
#[derive(Drop)]
pub struct Turns {
    values: Items<Value>,
    taken: usize,
}

impl Model for Turns {
    ghost use Rattle.std.specs.Prelude.{List, drop};
    ghost use Rattle.std.specs.Coded.{coded_list};
    ghost use Rattle.nb_value.specs.contracts.value.Value as row;
    ghost use Rattle.nb_value.specs.declared.value.Value.{Value as CellValue};

    ghost Value = { List CellValue };

    ghost coded = { coded_list row.the_row.coded };

    ghost view = { λ it. drop it.taken it.values };
}

impl Turns {
    /// All the values. It takes no memory.
    pub fn new(values: Items<Value>) -> Turns
        ensures { result ≡ values }
    {
        Turns { values, taken: 0 }
    }

    /// Whether none is left. It takes no memory.
    #[tactic(auto, using(std::proofs::lemmas::List::drop_all, crate::proofs::Lefts::some_left))]
    pub fn is_empty(&self) -> bool
        ensures { IsTrue result ↔ (self.now ≡ []) }
    {
        self.taken >= self.values.len()
    }

    /// Takes the next value, by a copy of it, in time linear in it. It fails only without memory, and then nothing has changed.
    #[tactic(auto, using(crate::proofs::Lefts::next_left, crate::proofs::Lefts::none_left))]
    pub fn take(&mut self, alloc: Global) -> Result<Option<Value>, AllocError>
        ensures some { (v : Value) → result ≡ Ok (Some v) → self.old ≡ v ∷ self.new }
        ensures none { result ≡ Ok None → self.old ≡ [] }
        ensures err { OnErr result (self.new ≡ self.old) }
    {
        let _len = self.values.len();
        match self.values.get(self.taken) {
            Some(value) => {
                let value = value.copy(alloc)?;
                self.taken += 1;
                Ok(Some(value))
            }
            None => Ok(None),
        }
    }
}
