ghost use Rattle.std.specs.Prelude.{◌≡◌, ◌≤◌, [], length, None, Some, IfOk};

use crate::{FileFail, Files, StdSource, read_to_end};
use nb_value::{Bytes, Text};
use std::alloc::Global;
use std::fs;
use std::io::Read;

/// The files of the system, which tell the names that were asked for, and nothing of what stands in a file. Each name that
/// was asked for is kept.
#[derive(Drop)]
pub struct StdFiles<R: Drop> {
    alloc: Global,
    system: R,
    asked: Vec<Text>,
    faults: u64,
}

impl<R: fs::Files + Drop> StdFiles<R> {
    /// The files that this handle reaches, with no fault yet.
    pub fn new(alloc: Global, system: R) -> StdFiles<R>
        ensures asked { ⟦<StdFiles<R> as Files>⟧.asked result ≡ Some [] }
        ensures faults { ⟦<StdFiles<R> as Files>⟧.faults result ≡ 0 }
    {
        StdFiles {
            alloc,
            system,
            asked: Vec::new(alloc),
            faults: 0,
        }
    }

    // Opens the file and reads one byte more than the limit at most.
    fn content(&self, name: &str, limit: usize) -> Result<Bytes, FileFail>
        ensures { IfOk result (λ bytes. length bytes ≤ limit) }
    {
        let file = fs::open(&self.system, name)?;
        let most = (limit as u64).saturating_add(1);
        Ok(read_to_end(self.alloc, &mut StdSource::new(file.take(most)), limit)?)
    }
}

impl<R: fs::Files + Drop> Files for StdFiles<R> {
    ghost file_of = { λ _ _. None };

    ghost asked = { λ f. Some f.asked.items };

    ghost faults = { λ f. f.faults };

    fn read_file(&mut self, name: &str, limit: usize) -> Result<Bytes, FileFail> {
        let asked = Text::from_str(self.alloc, name)?;
        self.asked.push(asked)?;
        let content = self.content(name, limit);
        if let Err(FileFail::Failed) = content {
            self.faults = self.faults.saturating_add(1);
        }
        content
    }
}
