ghost use Rattle.std.specs.Prelude.{◌≡◌, ◌⊎◌, [], List, ℕ, Some, IsErrOf};
ghost use Rattle.std.specs.Option.{option_copied};
ghost use Rattle.nb_io.specs.declared.files.FileFail.TheVariants.{Failed, Memory};
ghost use Rattle.nb_io.specs.Calls.{Fails, counted, uncalled};
ghost use Rattle.nb_io.specs.Causes.{HasCauseAt};
ghost use Rattle.nb_io.specs.Named.{AsksFor, ReadsFile, TellsNoFile, bytes_under};

use crate::calls::Calls;
use crate::{FileFail, Files};
use nb_value::{Bytes, Numbers, Text};
use std::alloc::Global;
use std::marker::Model;

/// Files with their names, which contracts see as a list of names and bytes. Of two with one name the first counts.
#[derive(Drop)]
pub struct NamedFiles {
    items: Vec<(Text, Bytes)>,
}

impl Model for NamedFiles {
    ghost use Rattle.std.specs.Prelude.{List, ℕ};

    ghost Value = { List (List ℕ × List ℕ) };

    ghost view = { λ n. n.items.items };
}

impl NamedFiles {
    /// The files in this order.
    pub fn from_vec(items: Vec<(Text, Bytes)>) -> NamedFiles
        ensures { result ≡ items.items }
    {
        NamedFiles { items }
    }

    fn find(&self, name: &str) -> Option<&Bytes>
        ensures { option_copied result ≡ bytes_under self.now name.now }
    {
        for (file_name, bytes) in &self.items {
            if file_name.as_str() == name {
                return Some(bytes);
            }
        }
        None
    }
}

/// Files in memory, which tell their bytes and the names that were asked for. `failing` has the numbers of the calls that
/// fail, counted from 1. A call for a name without a file fails too. A call takes time linear in the names; each name that
/// was asked for is kept.
#[derive(Drop)]
pub struct MemFiles {
    alloc: Global,
    named: NamedFiles,
    calls: Calls,
    faults: u64,
    asked: Vec<Text>,
}

impl MemFiles {
    /// These files. Its calls take their memory from `alloc`.
    pub fn new(alloc: Global, named: NamedFiles, failing: Numbers) -> MemFiles
        ensures files { (name : List ℕ) → ⟦<MemFiles as Files>⟧.file_of result name ≡ Some (bytes_under named name) }
        ensures asked { ⟦<MemFiles as Files>⟧.asked result ≡ Some [] }
        ensures faults { ⟦<MemFiles as Files>⟧.faults result ≡ 0 }
        ensures calls { result.calls ≡ uncalled failing }
    {
        MemFiles {
            alloc,
            named,
            calls: Calls::new(failing),
            faults: 0,
            asked: Vec::new(alloc),
        }
    }
}

impl Files for MemFiles {
    ghost file_of = { λ f name. Some (bytes_under f.named name) };

    ghost asked = { λ f. Some f.asked.items };

    ghost faults = { λ f. f.faults };

    fn read_file(&mut self, name: &str, limit: usize) -> Result<Bytes, FileFail>
        ensures bytes { ReadsFile (Some (bytes_under self.old.named name.now)) limit result }
        ensures stays { (n : List ℕ) → Some (bytes_under self.new.named n) ≡ Some (bytes_under self.old.named n) }
        ensures asks { AsksFor (Some self.old.asked.items) (Some self.new.asked.items) name.now result }
        ensures cause { HasCauseAt Failed self.old.faults self.new.faults result }
        ensures calls { self.new.calls ≡ counted self.old.calls }
        ensures fails { Fails self.old.calls → IsErrOf result Failed ⊎ IsErrOf result Memory }
        ensures only { IsErrOf result Failed → Fails self.old.calls ⊎ TellsNoFile (Some (bytes_under self.old.named name.now)) }
    {
        let fails = self.calls.count();
        let asked = Text::from_str(self.alloc, name)?;
        self.asked.push(asked)?;
        match self.named.find(name) {
            Some(bytes) if !fails => {
                if bytes.len() > limit {
                    return Err(FileFail::TooLong);
                }
                Ok(bytes.copy(self.alloc)?)
            }
            _ => {
                self.faults = self.faults.saturating_add(1);
                Err(FileFail::Failed)
            }
        }
    }
}
