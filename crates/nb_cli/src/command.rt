use nb_value::Text;
use std::alloc::AllocError;
use thiserror::Error;

/// What the program is asked to do.
#[derive(Debug, Drop)]
pub enum Command {
    /// Runs the lines of the input, over the notebook of the file if there is one.
    Run(Option<Text>),
    /// The same with this many workers, each a thread: 1 to 16.
    Workers(u32, Option<Text>),
    /// Runs lines that are made, not read: how many, 1 to 1,000, and from which seed.
    Make(u32, u32),
    /// Writes the notebook of the file as a document of version 2.
    Upgrade(Text),
}

/// Why words are no command.
#[derive(Clone, Copy, Debug, PartialEq, Eq, Drop, Error)]
pub enum WordsFail {
    /// They aren't any command's words.
    #[error("no command")]
    Usage,
    /// There was no memory to read them.
    #[error("out of memory")]
    Memory,
}

impl From<AllocError> for WordsFail {
    ghost use Rattle.std.specs.Prelude.{◌≡◌};
    ghost use Rattle.nb_cli.specs.declared.command.WordsFail.TheVariants.{Memory};

    ghost from_gives = { λ _ e. e ≡ Memory };

    fn from(_error: AllocError) -> WordsFail {
        WordsFail::Memory
    }
}
