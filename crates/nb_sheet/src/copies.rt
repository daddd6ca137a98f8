ghost use Rattle.std.specs.Prelude.{◌≡◌};

use crate::row::BodyOf;
use nb_value::Text;
use std::marker::Model;

/// A variable that a derive makes. It has a name, and isn't observed.
#[derive(Debug, Drop)]
pub struct NewVar {
    pub name: Text,
    pub body: BodyOf,
}

/// The variables of a module that a derive makes, in their order, which contracts see as a list.
#[derive(Debug, Drop)]
pub struct NewVars {
    items: Vec<NewVar>,
}

impl Model for NewVars {
    ghost use Rattle.std.specs.Prelude.{List};
    ghost use Rattle.std.specs.Coded.{coded_list};
    ghost use Rattle.nb_sheet.specs.declared.copies.NewVar.{NewVar as Var};
    ghost use Rattle.nb_sheet.specs.contracts.copies.NewVar as var;

    ghost Value = { List Var };

    ghost coded = { coded_list var.the_row.coded };

    ghost view = { λ v. v.items.items };
}

impl NewVars {
    /// The variables in this order.
    pub fn from_vec(items: Vec<NewVar>) -> NewVars
        ensures { result ≡ items.items }
    {
        NewVars { items }
    }

    /// The variables in their order.
    pub fn as_slice(&self) -> &[NewVar]
        ensures { result.now ≡ self.now }
    {
        &self.items
    }

    /// The variables in their order. It takes no memory.
    pub fn into_vec(self) -> Vec<NewVar>
        ensures { result.items ≡ self }
    {
        let NewVars { items } = self;
        items
    }
}

/// A module that a derive makes.
#[derive(Debug, Drop)]
pub struct NewModule {
    pub variables: NewVars,
}

/// The modules that a derive makes, in their order, which contracts see as a list.
#[derive(Debug, Drop)]
pub struct Copies {
    items: Vec<NewModule>,
}

impl Model for Copies {
    ghost use Rattle.std.specs.Prelude.{List};
    ghost use Rattle.std.specs.Coded.{coded_list};
    ghost use Rattle.nb_sheet.specs.declared.copies.NewModule.{NewModule as Module};
    ghost use Rattle.nb_sheet.specs.contracts.copies.NewModule as one;

    ghost Value = { List Module };

    ghost coded = { coded_list one.the_row.coded };

    ghost view = { λ c. c.items.items };
}

impl Copies {
    /// The modules in this order.
    pub fn from_vec(items: Vec<NewModule>) -> Copies
        ensures { result ≡ items.items }
    {
        Copies { items }
    }

    /// The modules in their order.
    pub fn as_slice(&self) -> &[NewModule]
        ensures { result.now ≡ self.now }
    {
        &self.items
    }

    /// The modules in their order. It takes no memory.
    pub fn into_vec(self) -> Vec<NewModule>
        ensures { result.items ≡ self }
    {
        let Copies { items } = self;
        items
    }
}
