ghost use Rattle.std.specs.Prelude.{◌≡◌, ◌∷◌, [], Some, None, slice_get};
ghost use Rattle.std.specs.Option.{option_copied};

use std::alloc::Global;
use std::marker::Model;

/// A `Vec` that contracts see as the list of its elements, the last pushed first.
#[derive(Drop)]
pub struct Pile<T> {
    items: Vec<T>,
}

impl<T> Model for Pile<T> {
    ghost use Rattle.std.specs.Prelude.{List, reverse};
    ghost use Rattle.std.specs.Coded.{coded_list};

    ghost Value = { List T };

    ghost coded = { coded_list T.code };

    ghost view = { λ it. reverse it.items.items };
}

impl<T> Pile<T> {
    /// No elements. It takes no memory yet.
    pub fn new(alloc: Global) -> Pile<T>
        ensures { result ≡ [] }
    {
        Pile {
            items: Vec::new(alloc),
        }
    }
}

impl<T> Pile<T> {
    /// The element on top.
    #[tactic(auto, using(crate::proofs::Piles::top_is))]
    pub fn top(&self) -> Option<&T>
        ensures { option_copied result ≡ slice_get self.now 0 }
    {
        self.items.as_slice().last()
    }
}

impl<T: Drop> Pile<T> {
    /// Puts an element on top, in constant time on average. Where memory runs out it comes back, and nothing has changed.
    #[tactic(auto, using(crate::proofs::Piles::reverse_one))]
    pub fn push(&mut self, item: T) -> Result<(), T>
        ensures ok { result ≡ Ok tt → self.new ≡ item ∷ self.old }
        ensures err { (t : T) → result ≡ Err t → (t ≡ item) × (self.new ≡ self.old) }
    {
        match self.items.push(item) {
            Ok(()) => Ok(()),
            Err(failed) => Err(failed.value),
        }
    }

    /// Takes the element on top. It takes no memory.
    #[tactic(auto, using(crate::proofs::Piles::reverse_one))]
    pub fn pop(&mut self) -> Option<T>
        ensures some { (t : T) → result ≡ Some t → self.old ≡ t ∷ self.new }
        ensures none { result ≡ None → self.old ≡ [] }
    {
        self.items.pop()
    }
}
