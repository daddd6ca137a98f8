ghost use Rattle.std.specs.Prelude.{ℕ, ◌<◌, ◌≤◌, List, length, Option, IfOk};
ghost use Rattle.nb_io.specs.declared.spawner.SpawnFail.TheVariants.{Failed};
ghost use Rattle.nb_io.specs.declared.spawner.ChildRun.{ChildRun};
ghost use Rattle.nb_io.specs.Causes.{HasCauseAt};
ghost use Rattle.nb_io.specs.Runs.{AddsAnswer};

use crate::ReadFail;
use nb_value::{Argv, Bytes};
use std::alloc::{AllocError, AllocFailed};
use std::io;

/// How a child ended, with what it printed.
#[derive(Debug, Drop)]
pub struct ChildEnd {
    /// What the child ended with; -1 after a signal ended it.
    pub status: i64,
    /// All that it wrote to its standard output.
    pub output: Bytes,
}

/// Why there is no end of a child.
#[derive(Clone, Copy, Debug, PartialEq, Eq)]
pub enum SpawnFail {
    /// The object failed, as it does where no such program starts. Its count of faults has risen.
    Failed,
    /// The child wrote more bytes than the limit.
    TooLong,
    /// There was no memory. The child may have run.
    Memory,
}

impl From<AllocError> for SpawnFail {
    ghost use Rattle.std.specs.Prelude.{◌≡◌};
    ghost use Rattle.nb_io.specs.declared.spawner.SpawnFail.TheVariants.{Memory};

    ghost from_gives = { λ _ e. e ≡ Memory };

    fn from(_: AllocError) -> SpawnFail {
        SpawnFail::Memory
    }
}

impl<T: Drop> From<AllocFailed<T>> for SpawnFail {
    ghost use Rattle.std.specs.Prelude.{◌≡◌};
    ghost use Rattle.nb_io.specs.declared.spawner.SpawnFail.TheVariants.{Memory};

    ghost from_gives = { λ _ e. e ≡ Memory };

    fn from(_: AllocFailed<T>) -> SpawnFail {
        SpawnFail::Memory
    }
}

impl From<ReadFail> for SpawnFail {
    ghost use Rattle.std.specs.Prelude.{◌≡◌};
    ghost use Rattle.nb_io.specs.Causes.{spawn_fail};

    ghost from_gives = { λ fail e. e ≡ spawn_fail fail };

    fn from(fail: ReadFail) -> SpawnFail {
        match fail {
            ReadFail::Fault => SpawnFail::Failed,
            ReadFail::TooLong(_) => SpawnFail::TooLong,
            ReadFail::Memory => SpawnFail::Memory,
        }
    }
}

impl From<io::Error> for SpawnFail {
    fn from(error: io::Error) -> SpawnFail {
        match error.kind() {
            io::ErrorKind::OutOfMemory => SpawnFail::Memory,
            _ => SpawnFail::Failed,
        }
    }
}

/// One run of a child.
#[derive(Debug, Drop)]
pub struct ChildRun {
    /// The words that started it.
    pub argv: Argv,
    /// The most bytes that its output could have.
    pub limit: usize,
    /// How it was answered.
    pub answer: Result<ChildEnd, SpawnFail>,
}

/// What starts other programs.
pub trait Spawner {
    /// The runs so far in their order, where the object tells them.
    ghost runs: { Self → Option (List ChildRun) };

    /// How often the object has failed, up to the greatest `u64`. It never falls.
    ghost faults: { Self → ℕ };

    /// Starts the program that the first word names, waits for its end, and gives its status and its standard output,
    /// if that has at most `limit` bytes. It takes memory linear in the output.
    fn run(&mut self, argv: &Argv, limit: usize) -> Result<ChildEnd, SpawnFail>
        requires { 0 < length argv.now }
        ensures within { IfOk result (λ end. length end.output ≤ limit) }
        ensures adds { AddsAnswer (runs self.old) (runs self.new) argv.now limit result }
        ensures cause { HasCauseAt Failed (faults self.old) (faults self.new) result };
}
