ghost use Rattle.std.specs.Prelude.{◌≡◌};
ghost use Rattle.nb_sheet.specs.Sheet.{is_derive as is_derive_of};

use nb_syntax::Cell;
use nb_value::{Items, Text};

/// Which variable of the source a derived module has in place of its own, and under which name.
#[derive(Debug, Drop)]
pub struct Specifier {
    pub name: Text,
    pub alias: Text,
}

/// A list of specifiers.
pub type Specifiers = Items<Specifier>;

/// A change of the sheet.
#[derive(Debug, Drop)]
pub enum Edit {
    /// A new empty module.
    AddModule,
    /// A new undefined variable of a module.
    AddVariable {
        module: u32,
        observed: bool,
    },
    /// A new variable of a module, defined by the cell.
    AddCell {
        module: u32,
        cell: Cell,
        observed: bool,
    },
    /// The variable gets the cell's name, and the cell as its body.
    Define {
        variable: u32,
        cell: Cell,
    },
    /// The variable gets the alias as its name, and stands for a variable of another module.
    Import {
        variable: u32,
        name: Text,
        alias: Text,
        from: u32,
    },
    /// The variable's name and body are taken away.
    Delete {
        variable: u32,
    },
    /// The one variable of the module that has the cell's name gets the cell as its body.
    Redefine {
        module: u32,
        cell: Cell,
    },
    /// A copy of the module with imports from the source in place of some variables, and copies of the modules made by a
    /// derive that it imports from.
    Derive {
        module: u32,
        with: Specifiers,
        source: u32,
    },
}

impl Edit {
    /// Whether it is a derive, whose copies are made apart. It takes no memory.
    pub fn is_derive(&self) -> bool
        ensures { result ≡ is_derive_of self.now }
    {
        match self {
            Edit::Derive { .. } => true,
            _ => false,
        }
    }
}
