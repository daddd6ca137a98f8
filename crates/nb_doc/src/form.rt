//! The fields of a document's objects.
ghost use Rattle.std.specs.Prelude.{◌≡◌};
ghost use Rattle.nb_doc.specs.Forms.{field_name, is_among};

/// A field of an object in a document.
#[derive(Clone, Copy, Debug, PartialEq, Eq)]
pub enum Field {
    Notebook,
    Builtins,
    Modules,
    Loaders,
    Name,
    Items,
    Derive,
    With,
    Source,
    Cell,
    Observed,
    Import,
    Alias,
    From,
    Key,
    Argv,
}

impl Field {
    /// Its key in the object.
    pub fn name(self) -> &'static str
        ensures { result.now ≡ field_name self }
    {
        match self {
            Field::Notebook => "notebook",
            Field::Builtins => "builtins",
            Field::Modules => "modules",
            Field::Loaders => "loaders",
            Field::Name => "name",
            Field::Items => "items",
            Field::Derive => "derive",
            Field::With => "with",
            Field::Source => "source",
            Field::Cell => "cell",
            Field::Observed => "observed",
            Field::Import => "import",
            Field::Alias => "alias",
            Field::From => "from",
            Field::Key => "key",
            Field::Argv => "argv",
        }
    }
}

/// Whether a key is that of one of these fields.
pub fn is_among(key: &str, fields: &[Field]) -> bool
    ensures { result ≡ is_among fields.now key.now }
{
    fields.iter().any(|field| field.name() == key)
}
