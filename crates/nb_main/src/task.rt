ghost use Rattle.nb_main.specs.Task.{file_of, task, ReadsTask};

use nb_cli::{Command, WordsFail, read_words};
use nb_value::{Text, Words};
use std::alloc::Global;

/// What a call does.
#[derive(Debug, Drop)]
pub enum Task {
    /// Runs the lines of the input, after those of the notebook in the file with this name, if there is one.
    Run(Option<Text>),
    /// Runs the lines of the notebook of so many cells that is made of a seed.
    Make(u32, u32),
    /// Writes the notebook in the file with this name as one of version 2.
    Upgrade(Text),
}

/// The task that the words ask for. It fails with `Usage` exactly where they ask for none, and with `Memory` only without
/// memory.
pub fn read_task(alloc: Global, words: &Words) -> Result<Task, WordsFail>
    ensures { ReadsTask (task words.now) result }
{
    match read_words(alloc, words)? {
        Command::Run(file) => Ok(Task::Run(file)),
        Command::Make(cells, seed) => Ok(Task::Make(cells, seed)),
        Command::Upgrade(file) => Ok(Task::Upgrade(file)),
        Command::Workers(_, _) => Err(WordsFail::Usage),
    }
}
