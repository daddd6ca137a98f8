//! Code that is being written.

ghost use Rattle.std.specs.Prelude.{◌≡◌, ◌^◌, ◌<◌, ℕ, List, [], ◌∷◌, ◌++◌, length, OnOk};
ghost use Rattle.nb_machine.specs.declared.instr.Instr.{Instr};

use crate::instr::Instr;
use nb_value::Items;
use std::alloc::{AllocError, Global};
use std::marker::Model;

/// Code that is written from its last instruction to its first, so that what a jump passes is there before the jump.
/// Contracts see the list of its instructions in their order.
#[derive(Drop)]
pub(crate) struct Draft {
    reversed: Vec<Instr>,
}

impl Model for Draft {
    ghost use Rattle.std.specs.Prelude.{List, reverse};
    ghost use Rattle.std.specs.Coded.{codes};
    ghost use Rattle.nb_value.specs.contracts.value.Value as value;
    ghost use Rattle.nb_machine.specs.declared.instr.Instr.{Instr};

    ghost Value = { List Instr };

    ghost coded = { Prim.hlevel (codes, value.the_row.coded) };

    ghost view = { λ draft. reverse draft.reversed.items };
}

impl Draft {
    /// No code. It takes no memory yet.
    pub(crate) fn new(alloc: Global) -> Draft
        ensures { result ≡ [] }
    {
        Draft {
            reversed: Vec::new(alloc),
        }
    }

    /// The number of instructions.
    pub(crate) fn len(&self) -> usize
        ensures value { result ≡ length self.now }
        ensures small { result < 2 ^ 63 }
    {
        self.reversed.len()
    }

    /// Puts an instruction in front of the code, in constant time on average. It fails only without memory.
    pub(crate) fn push_front(&mut self, instr: Instr) -> Result<(), AllocError>
        ensures { OnOk result (self.new ≡ instr ∷ self.old) }
    {
        self.reversed.push(instr)?;
        Ok(())
    }

    /// Puts an instruction in the place of the one that has so many after it, in constant time. It takes no memory.
    pub(crate) fn set_before(&mut self, after: usize, instr: Instr)
        requires { after < length self.old }
        ensures { (front rest : List Instr) (x : Instr) → self.old ≡ front ++ x ∷ rest → length rest ≡ after → self.new ≡ front ++ instr ∷ rest }
    {
        self.reversed[after] = instr;
    }

    /// The code, in place of the draft, in time linear in it.
    pub(crate) fn into_items(self) -> Items<Instr>
        ensures { result ≡ self }
    {
        let Draft { mut reversed } = self;
        reversed.reverse();
        Items::from_vec(reversed)
    }
}
