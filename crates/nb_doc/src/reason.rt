use nb_parser::ParseError;
use nb_value::Text;
use std::alloc::AllocError;

/// Why a document is refused.
#[derive(Debug, Drop)]
pub enum DocReason {
    /// It is no JSON.
    NotJson,
    /// What stands there is no object, and has to be one.
    NotObject,
    /// An object has this field, and may not.
    UnknownField,
    /// An object lacks this field.
    MissingField,
    /// The field, or the element of an array, is of another kind, or out of its limits.
    WrongField,
    /// The cell is none. The fault isn't want of memory.
    BadCell(ParseError),
    /// An earlier loader has this key.
    TwoLoaders,
    /// An earlier module has this name.
    TwoModules,
}

/// Why a document is not read.
#[derive(Debug, Drop)]
pub enum DocFail {
    /// Where the first fault stands, and what it is. The path is empty for the whole; else it has `/` and a field's key or
    /// a position, from 0, level by level, as `/modules/0/items/3/cell`.
    Bad { path: Text, reason: DocReason },
    /// Memory ran out.
    Memory,
}

impl From<AllocError> for DocFail {
    ghost use Rattle.std.specs.Prelude.{◌≡◌};
    ghost use Rattle.nb_doc.specs.declared.reason.DocFail.TheVariants.{Memory};

    ghost from_gives = { λ _ e. e ≡ Memory };

    fn from(_refused: AllocError) -> DocFail {
        DocFail::Memory
    }
}
