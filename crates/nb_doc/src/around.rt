//! The modules that a module or an item may refer to.
ghost use Rattle.std.specs.Prelude.{◌≡◌, ◌<◌, ◌+◌, ◌^◌, ◌++◌, OnOk, option_map};
ghost use Rattle.nb_doc.specs.Contents.{place_of};
ghost use Rattle.nb_doc.specs.Modules.{around as around_of, start, listed};

use nb_value::{Items, Text};
use std::alloc::{AllocError, Global};

/// The modules that may be meant: so many, with these names, if modules have names.
#[derive(Debug, Drop)]
pub struct Around {
    /// Whether modules have names, and are meant by them; else by their positions.
    pub named: bool,
    pub names: Items<Text>,
    pub modules: usize,
}

/// The position of the module that has the name.
pub fn place_of(names: &[Text], name: &str) -> Option<usize>
    ensures { result ≡ place_of names.now name.now }
{
    names.iter().position(|known| known.as_str() == name)
}

/// No modules yet.
pub fn no_modules(alloc: Global, named: bool) -> Around
    ensures { result ≡ start named }
{
    Around {
        named,
        names: Items::new(alloc),
        modules: 0,
    }
}

/// Has one module more, with this name if modules have names.
pub fn enter(alloc: Global, around: &mut Around, name: Option<&str>) -> Result<(), AllocError>
    requires { around.old.modules < 2 ^ 63 }
    ensures { OnOk result (around.new ≡ around_of around.old.named (around.old.names ++ listed (option_map (λ s. s.now) name.entry)) (around.old.modules + 1)) }
{
    if let Some(name) = name {
        around.names.push(Text::from_str(alloc, name)?)?;
    }
    around.modules += 1;
    Ok(())
}
