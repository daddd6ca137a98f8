use nb_log::Event;
use nb_parser::ParseError;
use nb_value::{Items, Text};
use std::alloc::AllocError;

/// A line that was read: whose it is, and what it says.
#[derive(Debug, Drop)]
pub struct ScriptLine {
    /// From 0 to 7.
    pub editor: u8,
    pub event: Event,
}

/// The lines that were read, in their order.
pub type Scripts = Items<ScriptLine>;

/// Why a line is refused.
#[derive(Debug, Drop)]
pub enum BadReason {
    /// It has more than 65,536 bytes, without its line feed.
    LineTooLong,
    /// 65,536 lines stand before it.
    TooManyLines,
    /// It is no JSON.
    NotJson,
    /// It is JSON of something else than an object.
    NotObject,
    /// Its `do` is none that there is.
    UnknownDo,
    /// It has a field, with this key, that its form has not.
    UnknownField(Text),
    /// It lacks the field with this key.
    MissingField(Text),
    /// The field with this key is of another kind, or may not stand beside another.
    WrongField(Text),
    /// It redefines by a cell that has no name.
    Unnamed,
    /// Its cell is none. The fault isn't want of memory.
    BadCell(ParseError),
}

/// Why the input is not read.
#[derive(Debug, Drop)]
pub enum LineFail {
    /// The number of the first line that is refused, and why.
    Bad { line: u32, reason: BadReason },
    /// Memory ran out.
    Memory,
}

impl From<AllocError> for LineFail {
    ghost use Rattle.std.specs.Prelude.{◌≡◌};
    ghost use Rattle.nb_lines.specs.declared.script.LineFail.TheVariants.{Memory};

    ghost from_gives = { λ _ e. e ≡ Memory };

    fn from(_refused: AllocError) -> LineFail {
        LineFail::Memory
    }
}

/// Why one line is not read.
#[derive(Debug, Drop)]
pub enum OneFail {
    /// It is refused.
    Bad(BadReason),
    /// Memory ran out.
    Memory,
}

impl From<AllocError> for OneFail {
    ghost use Rattle.std.specs.Prelude.{◌≡◌};
    ghost use Rattle.nb_lines.specs.declared.script.OneFail.TheVariants.{Memory};

    ghost from_gives = { λ _ e. e ≡ Memory };

    fn from(_refused: AllocError) -> OneFail {
        OneFail::Memory
    }
}
