ghost use Rattle.std.specs.Prelude.{◌≡◌, ℕ, List, Option};
ghost use Rattle.nb_io.specs.declared.files.FileFail.TheVariants.{Failed};
ghost use Rattle.nb_io.specs.Causes.{HasCauseAt};
ghost use Rattle.nb_io.specs.Named.{AsksFor, ReadsFile};

use crate::ReadFail;
use nb_value::Bytes;
use std::alloc::{AllocError, AllocFailed};
use std::io;

/// Why a file was not read.
#[derive(Clone, Copy, Debug, PartialEq, Eq)]
pub enum FileFail {
    /// The object failed, as it does at a name without a file. Its count of faults has risen.
    Failed,
    /// The file has more bytes than the limit.
    TooLong,
    /// There was no memory.
    Memory,
}

impl From<AllocError> for FileFail {
    ghost use Rattle.std.specs.Prelude.{◌≡◌};
    ghost use Rattle.nb_io.specs.declared.files.FileFail.TheVariants.{Memory};

    ghost from_gives = { λ _ e. e ≡ Memory };

    fn from(_: AllocError) -> FileFail {
        FileFail::Memory
    }
}

impl<T: Drop> From<AllocFailed<T>> for FileFail {
    ghost use Rattle.std.specs.Prelude.{◌≡◌};
    ghost use Rattle.nb_io.specs.declared.files.FileFail.TheVariants.{Memory};

    ghost from_gives = { λ _ e. e ≡ Memory };

    fn from(_: AllocFailed<T>) -> FileFail {
        FileFail::Memory
    }
}

impl From<ReadFail> for FileFail {
    ghost use Rattle.std.specs.Prelude.{◌≡◌};
    ghost use Rattle.nb_io.specs.Causes.{file_fail};

    ghost from_gives = { λ fail e. e ≡ file_fail fail };

    fn from(fail: ReadFail) -> FileFail {
        match fail {
            ReadFail::Fault => FileFail::Failed,
            ReadFail::TooLong(_) => FileFail::TooLong,
            ReadFail::Memory => FileFail::Memory,
        }
    }
}

impl From<io::Error> for FileFail {
    fn from(error: io::Error) -> FileFail {
        match error.kind() {
            io::ErrorKind::OutOfMemory => FileFail::Memory,
            _ => FileFail::Failed,
        }
    }
}

/// Files that are read by name.
pub trait Files {
    /// What has each name, where the object tells it: a file of these bytes, or no file.
    ghost file_of: { Self → List ℕ → Option (Option (List ℕ)) };

    /// The names that were asked for so far, in their order, where the object tells them.
    ghost asked: { Self → Option (List (List ℕ)) };

    /// How often the object has failed, up to the greatest `u64`. It never falls.
    ghost faults: { Self → ℕ };

    /// All bytes of a file, if they are at most `limit`. A name without a file is answered `Failed`. No file is changed.
    /// It takes memory linear in the bytes that it gives.
    fn read_file(&mut self, name: &str, limit: usize) -> Result<Bytes, FileFail>
        ensures bytes { ReadsFile (file_of self.old name.now) limit result }
        ensures stays { (n : List ℕ) → file_of self.new n ≡ file_of self.old n }
        ensures asks { AsksFor (asked self.old) (asked self.new) name.now result }
        ensures cause { HasCauseAt Failed (faults self.old) (faults self.new) result };
}
