ghost use Rattle.std.specs.Prelude.{◌≡◌, ◌≤◌, ◌<◌, length, None, IfOk};

use crate::{ChildEnd, SpawnFail, Spawner, StdSource, read_to_end};
use nb_value::{Argv, Bytes};
use std::alloc::Global;
use std::io::Read;
use std::process::{Child, Command, ExitStatus, OpenProcess, Processes, Stdio};

/// The programs of the system, which tell nothing. A child has the null device as its standard input and standard error.
#[derive(Drop)]
pub struct StdSpawner<R: Drop> {
    alloc: Global,
    system: R,
    faults: u64,
}

impl<R: Processes + Drop> StdSpawner<R> {
    /// The programs that this handle starts, with no fault yet.
    pub fn new(alloc: Global, system: R) -> StdSpawner<R>
        ensures { ⟦<StdSpawner<R> as Spawner>⟧.faults result ≡ 0 }
    {
        StdSpawner {
            alloc,
            system,
            faults: 0,
        }
    }

    // Starts the program that the first word names, with the other words as its arguments.
    fn start(&self, argv: &Argv) -> Result<Child<R::Started>, SpawnFail>
        requires { 0 < length argv.now }
    {
        let words = argv.as_slice();
        let mut command = Command::new(self.alloc, words[0].as_str())?;
        for word in &words[1..] {
            command.arg(word.as_str())?;
        }
        command.stdin(Stdio::null());
        command.stdout(Stdio::piped());
        command.stderr(Stdio::null());
        Ok(command.spawn(&self.system)?)
    }
}

impl<R: Processes + Drop> Spawner for StdSpawner<R> {
    ghost runs = { λ _. None };

    ghost faults = { λ p. p.faults };

    fn run(&mut self, argv: &Argv, limit: usize) -> Result<ChildEnd, SpawnFail> {
        let end = self
            .start(argv)
            .and_then(|child| end_of(self.alloc, child, limit));
        if let Err(SpawnFail::Failed) = end {
            self.faults = self.faults.saturating_add(1);
        }
        end
    }
}

/// How a child ends. Its output is read and closed first, one byte more than the limit at most, so that it never waits for
/// room; and it is waited for whatever came.
fn end_of<P: OpenProcess + Drop>(
    alloc: Global,
    mut child: Child<P>,
    limit: usize,
) -> Result<ChildEnd, SpawnFail>
    ensures { IfOk result (λ end. length end.output ≤ limit) }
{
    let output = output_of(alloc, &mut child, limit);
    let status = child.wait()?;
    Ok(ChildEnd {
        status: number_of(status),
        output: output?,
    })
}

/// What a child writes to its standard output, which is closed then.
fn output_of<P: OpenProcess>(
    alloc: Global,
    child: &mut Child<P>,
    limit: usize,
) -> Result<Bytes, SpawnFail>
    ensures { IfOk result (λ output. length output ≤ limit) }
{
    let Some(stdout) = child.stdout.take() else {
        return Err(SpawnFail::Failed);
    };
    let most = (limit as u64).saturating_add(1);
    Ok(read_to_end(alloc, &mut StdSource::new(stdout.take(most)), limit)?)
}

/// What a child ended with, and -1 where a signal ended it.
fn number_of(status: ExitStatus) -> i64 {
    status.code().map_or(-1, |code| code as i64)
}
