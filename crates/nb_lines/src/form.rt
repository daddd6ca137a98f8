//! The forms of lines, and the fields that they have.
ghost use Rattle.std.specs.Prelude.{◌≡◌};
ghost use Rattle.nb_lines.specs.Forms.{field_name, form_named, known, is_among};

/// What a line does, by its `do`.
#[derive(Clone, Copy, Debug, PartialEq, Eq)]
pub enum Form {
    Module,
    Variable,
    Cell,
    Define,
    Import,
    Delete,
    Redefine,
    Derive,
    Frame,
    Settle,
    Rest,
    Dispose,
}

/// A field of a line, or of an item of `with`.
#[derive(Clone, Copy, Debug, PartialEq, Eq)]
pub enum Field {
    Do,
    Editor,
    Module,
    Variable,
    Cell,
    Observed,
    Name,
    Alias,
    From,
    With,
    Source,
    Ticket,
    Key,
    Value,
    Error,
}

impl Field {
    /// Its key in the line's object.
    pub fn name(self) -> &'static str
        ensures { result.now ≡ field_name self }
    {
        match self {
            Field::Do => "do",
            Field::Editor => "editor",
            Field::Module => "module",
            Field::Variable => "variable",
            Field::Cell => "cell",
            Field::Observed => "observed",
            Field::Name => "name",
            Field::Alias => "alias",
            Field::From => "from",
            Field::With => "with",
            Field::Source => "source",
            Field::Ticket => "ticket",
            Field::Key => "key",
            Field::Value => "value",
            Field::Error => "error",
        }
    }
}

impl Form {
    /// The form that a `do` names.
    #[tactic(auto, unfolding(crate::specs::Forms::form_named))]
    pub fn named(word: &str) -> Option<Form>
        ensures { result ≡ form_named word.now }
    {
        if word == "module" {
            Some(Form::Module)
        } else if word == "variable" {
            Some(Form::Variable)
        } else if word == "cell" {
            Some(Form::Cell)
        } else if word == "define" {
            Some(Form::Define)
        } else if word == "import" {
            Some(Form::Import)
        } else if word == "delete" {
            Some(Form::Delete)
        } else if word == "redefine" {
            Some(Form::Redefine)
        } else if word == "derive" {
            Some(Form::Derive)
        } else if word == "frame" {
            Some(Form::Frame)
        } else if word == "settle" {
            Some(Form::Settle)
        } else if word == "rest" {
            Some(Form::Rest)
        } else if word == "dispose" {
            Some(Form::Dispose)
        } else {
            None
        }
    }

    /// The fields that its lines may have.
    pub fn known(self) -> &'static [Field]
        ensures { result.now ≡ known self }
    {
        match self {
            Form::Module | Form::Frame | Form::Rest | Form::Dispose => &[Field::Do, Field::Editor],
            Form::Variable => &[Field::Do, Field::Editor, Field::Module, Field::Observed],
            Form::Cell => &[
                Field::Do,
                Field::Editor,
                Field::Module,
                Field::Cell,
                Field::Observed,
            ],
            Form::Define => &[Field::Do, Field::Editor, Field::Variable, Field::Cell],
            Form::Import => &[
                Field::Do,
                Field::Editor,
                Field::Variable,
                Field::Name,
                Field::Alias,
                Field::From,
            ],
            Form::Delete => &[Field::Do, Field::Editor, Field::Variable],
            Form::Redefine => &[Field::Do, Field::Editor, Field::Module, Field::Cell],
            Form::Derive => &[
                Field::Do,
                Field::Editor,
                Field::Module,
                Field::With,
                Field::Source,
            ],
            Form::Settle => &[
                Field::Do,
                Field::Editor,
                Field::Ticket,
                Field::Key,
                Field::Value,
                Field::Error,
            ],
        }
    }
}

/// Whether a key is that of one of these fields.
pub fn is_among(key: &str, fields: &[Field]) -> bool
    ensures { result ≡ is_among fields.now key.now }
{
    fields.iter().any(|field| field.name() == key)
}
