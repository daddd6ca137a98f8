use nb_cli::WordsFail;
use nb_doc::{DocFail, DocReason};
use nb_io::{Failed, FileFail, ReadFail};
use nb_lines::{BadReason, LineFail};
use nb_value::Text;
use std::alloc::AllocError;

/// The most bytes that a file or an input may have.
pub const LIMIT: usize = 4_194_304;

/// How a call ended.
#[derive(Debug, Drop)]
pub enum Status {
    /// All was read, done and written.
    Ok,
    /// Memory ran out.
    Memory,
    /// The words are no command.
    Usage,
    /// The first line of the input that is bad, by its number from 1, and its first reason.
    BadInput(u32, BadReason),
    /// A read of the input failed.
    ReadFault,
    /// A write failed.
    WriteFault,
    /// The file could not be read.
    FileFault,
    /// The file, or the input, has more bytes than this.
    TooLong(usize),
    /// The first fault of the document, by its path, and its reason.
    BadDocument(Text, DocReason),
}

impl Status {
    ghost use Rattle.std.specs.Prelude.{◌≡◌};
    ghost use Rattle.nb_main.specs.Notes.{number};

    /// The status that the process ends with.
    pub fn number(&self) -> u8
        ensures { result ≡ number self.now }
    {
        match self {
            Status::Ok => 0,
            Status::Memory => 1,
            Status::Usage => 2,
            Status::BadInput(_, _) => 3,
            Status::ReadFault => 4,
            Status::WriteFault => 5,
            Status::FileFault => 6,
            Status::TooLong(_) => 7,
            Status::BadDocument(_, _) => 8,
        }
    }
}

impl From<AllocError> for Status {
    ghost use Rattle.std.specs.Prelude.{◌≡◌};
    ghost use Rattle.nb_main.specs.declared.status.Status.TheVariants.{Memory};

    ghost from_gives = { λ _ e. e ≡ Memory };

    fn from(_refused: AllocError) -> Status {
        Status::Memory
    }
}

impl From<WordsFail> for Status {
    ghost use Rattle.std.specs.Prelude.{◌≡◌};
    ghost use Rattle.nb_main.specs.Ends.{by_words};

    ghost from_gives = { λ fail e. e ≡ by_words fail };

    fn from(fail: WordsFail) -> Status {
        match fail {
            WordsFail::Usage => Status::Usage,
            WordsFail::Memory => Status::Memory,
        }
    }
}

impl From<FileFail> for Status {
    ghost use Rattle.std.specs.Prelude.{◌≡◌};
    ghost use Rattle.nb_main.specs.Ends.{by_file};

    ghost from_gives = { λ fail e. e ≡ by_file fail };

    fn from(fail: FileFail) -> Status {
        match fail {
            FileFail::Failed => Status::FileFault,
            FileFail::TooLong => Status::TooLong(LIMIT),
            FileFail::Memory => Status::Memory,
        }
    }
}

impl From<DocFail> for Status {
    ghost use Rattle.std.specs.Prelude.{◌≡◌};
    ghost use Rattle.nb_main.specs.Ends.{by_document};

    ghost from_gives = { λ fail e. e ≡ by_document fail };

    fn from(fail: DocFail) -> Status {
        match fail {
            DocFail::Bad { path, reason } => Status::BadDocument(path, reason),
            DocFail::Memory => Status::Memory,
        }
    }
}

impl From<ReadFail> for Status {
    ghost use Rattle.std.specs.Prelude.{◌≡◌};
    ghost use Rattle.nb_main.specs.Ends.{by_read};

    ghost from_gives = { λ fail e. e ≡ by_read fail };

    fn from(fail: ReadFail) -> Status {
        match fail {
            ReadFail::Fault => Status::ReadFault,
            ReadFail::TooLong(most) => Status::TooLong(most),
            ReadFail::Memory => Status::Memory,
        }
    }
}

impl From<LineFail> for Status {
    ghost use Rattle.std.specs.Prelude.{◌≡◌};
    ghost use Rattle.nb_main.specs.Ends.{by_line};

    ghost from_gives = { λ fail e. e ≡ by_line fail };

    fn from(fail: LineFail) -> Status {
        match fail {
            LineFail::Bad { line, reason } => Status::BadInput(line, reason),
            LineFail::Memory => Status::Memory,
        }
    }
}

impl From<Failed> for Status {
    ghost use Rattle.std.specs.Prelude.{◌≡◌};
    ghost use Rattle.nb_main.specs.declared.status.Status.TheVariants.{WriteFault};

    ghost from_gives = { λ _ e. e ≡ WriteFault };

    fn from(_failed: Failed) -> Status {
        Status::WriteFault
    }
}
