ghost use Rattle.std.specs.Prelude.{◌≡◌, ◌++◌, ◌∷◌, [], IfOk, OnOk, OnErr, option_copied};
ghost use Rattle.nb_wave.specs.Rules.{is_behind as behind, is_overtaken as overtaken, is_pulling as pulling, is_leaving as leaving, wants_start as wanting};
ghost use Rattle.nb_wave.specs.Wave.{unput};

use crate::footing::Footing;
use std::alloc::{AllocError, Global};
use std::marker::Model;

/// Variables by number, which contracts see as the list of them.
#[derive(Drop)]
pub struct Vars {
    items: Vec<u32>,
}

impl Model for Vars {
    ghost use Rattle.std.specs.Prelude.{ℕ, List};

    ghost Value = { List ℕ };

    ghost view = { λ n. n.items.items };
}

impl Vars {
    /// Copies them, in their order. It fails only without memory.
    pub fn from_slice(alloc: Global, vars: &[u32]) -> Result<Vars, AllocError>
        ensures { IfOk result (λ copy. copy ≡ vars.now) }
    {
        let items = Vec::from_slice(alloc, vars)?;
        Ok(Vars { items })
    }

    /// None.
    pub fn new(alloc: Global) -> Vars
        ensures { result ≡ [] }
    {
        Vars {
            items: Vec::new(alloc),
        }
    }

    /// Adds one at the end. It fails only without memory, and then nothing has changed.
    pub fn push(&mut self, var: u32) -> Result<(), AllocError>
        ensures ok { OnOk result (self.new ≡ self.old ++ var ∷ []) }
        ensures err { OnErr result (self.new ≡ self.old) }
    {
        self.items.push(var)?;
        Ok(())
    }

    /// Them, in their order.
    pub fn as_slice(&self) -> &[u32]
        ensures { result.now ≡ self.now }
    {
        &self.items
    }
}

/// What is known of a variable.
#[derive(Drop)]
pub struct Row {
    /// Whether it is wanted.
    pub wanted: bool,
    /// Whether it runs at a second or later pull.
    pub later: bool,
    /// What it rests on now.
    pub present: Footing,
    /// What it needs directly.
    pub needs: Vars,
    /// What its start rests on, or none while it is idle.
    pub kept: Option<Footing>,
}

impl Row {
    /// The row of a variable that was never put.
    pub fn unput(alloc: Global) -> Row
        ensures { result ≡ unput }
    {
        Row {
            wanted: false,
            later: false,
            present: Footing::empty(alloc),
            needs: Vars::new(alloc),
            kept: None,
        }
    }

    /// What its start rests on, none while it is idle. It takes no memory.
    pub fn kept(&self) -> Option<&Footing>
        ensures { option_copied result ≡ self.now.kept }
    {
        self.kept.as_ref()
    }

    /// A copy of what its start rests on. It fails only without memory.
    pub fn copy_kept(&self, alloc: Global) -> Result<Option<Footing>, AllocError>
        ensures { IfOk result (λ copy. copy ≡ self.now.kept) }
    {
        match &self.kept {
            None => Ok(None),
            Some(kept) => Ok(Some(kept.copy(alloc)?)),
        }
    }

    /// Whether it is idle, or its footing now isn't the kept one. It takes no memory.
    pub fn is_behind(&self) -> bool
        ensures { result ≡ behind self.now }
    {
        match &self.kept {
            None => true,
            Some(kept) => !self.present.same(kept),
        }
    }

    /// Whether only the renewals of what it needs aren't the kept ones. It takes no memory.
    pub fn is_overtaken(&self) -> bool
        ensures { result ≡ overtaken self.now }
    {
        match &self.kept {
            None => false,
            Some(kept) => self.present.same_base(kept) && !self.present.same(kept),
        }
    }

    /// Whether it runs at a second or later pull that still counts. It takes no memory.
    pub fn is_pulling(&self) -> bool
        ensures { result ≡ pulling self.now }
    {
        self.later && !self.is_behind()
    }

    /// Whether it is neither wanted nor idle. It takes no memory.
    pub fn is_leaving(&self) -> bool
        ensures { result ≡ leaving self.now }
    {
        !self.wanted && self.kept.is_some()
    }

    /// Whether it is wanted and behind. It takes no memory.
    pub fn wants_start(&self) -> bool
        ensures { result ≡ wanting self.now }
    {
        self.wanted && self.is_behind()
    }
}
