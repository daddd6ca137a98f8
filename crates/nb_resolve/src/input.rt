ghost use Rattle.std.specs.Prelude.{◌≡◌};

use crate::resolution::Resolution;
use nb_value::Text;
use std::marker::Model;

/// An input of a variable: a name, and what it stands for. Contracts see it as the pair of these.
#[derive(Debug, Drop)]
pub struct Input {
    name: Text,
    resolution: Resolution,
}

impl Model for Input {
    ghost use Rattle.nb_sheet.specs.Lists.{Name};
    ghost use Rattle.nb_resolve.specs.declared.resolution.Resolution.{Resolution as ResolutionValue};

    ghost Value = { Name × ResolutionValue };

    ghost view = { λ i. (i.name, i.resolution) };
}

impl Input {
    /// A name with what it stands for.
    pub fn new(name: Text, resolution: Resolution) -> Input
        ensures { result ≡ (name, resolution) }
    {
        Input { name, resolution }
    }

    /// The name. It takes no memory.
    pub fn name(&self) -> &Text
        ensures { result.now ≡ self.now.0 }
    {
        &self.name
    }

    /// What the name stands for. It takes no memory.
    pub fn resolution(&self) -> Resolution
        ensures { result ≡ self.now.1 }
    {
        self.resolution
    }
}
