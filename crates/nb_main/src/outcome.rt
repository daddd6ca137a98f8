//! What a task comes to, before anything is written.
ghost use Rattle.std.specs.Prelude.{◌≡◌, ◌≤◌, ℕ, List, Some, length, IfOk, IfErr};
ghost use Rattle.std.specs.Option.{option_copied};
ghost use Rattle.nb_doc.specs.Loading.{HasWords};
ghost use Rattle.nb_main.specs.Task.{file_of};
ghost use Rattle.nb_main.specs.Answers.{AsksFor, ComesTo, RunsNothingBy, RunsTo, StaysUnread, Stops, StopsRun, seen, seen_files, seen_runs};
ghost use Rattle.nb_main.specs.Outcome.{GivesRun, RefusesLines};
ghost use Rattle.nb_main.specs.Ends.{limit};

use crate::history::history;
use crate::making::made;
use crate::reading::{document_of, upgraded_file};
use crate::status::{LIMIT, Status};
use crate::task::Task;
use nb_doc::Document;
use nb_io::{Files, Source, Spawner, read_to_end};
use nb_lines::read_lines;
use nb_print::print;
use nb_value::{Bytes, Text};
use std::alloc::Global;

/// What a task writes, or why it writes nothing.
#[tactic(auto, using(crate::proofs::CallLemmas::asks_nothing))]
pub fn text_of<S: Source, F: Files, P: Spawner>(
    alloc: Global,
    task: &Task,
    input: &mut S,
    files: &mut F,
    programs: &mut P,
) -> Result<Bytes, Status>
    ensures comes { IfOk result (ComesTo (seen_files F.file_of F.faults files.old files.new) (seen S.left S.faults input.old input.new) (seen_runs P.runs programs.old programs.new) task.now) }
    ensures stops { IfErr result (Stops (seen_files F.file_of F.faults files.old files.new) (seen S.left S.faults input.old input.new) task.now) }
    ensures unrun { IfErr result (λ status. RunsNothingBy status (seen_runs P.runs programs.old programs.new)) }
    ensures asks { AsksFor (file_of task.now) (F.asked files.old) (F.asked files.new) }
    ensures unread { StaysUnread (Some task.now) (seen S.left S.faults input.old input.new) }
    ensures stays { (n : List ℕ) → F.file_of files.new n ≡ F.file_of files.old n }
{
    match task {
        Task::Run(file) => run(alloc, file.as_ref(), input, files, programs),
        Task::Make(cells, seed) => made(alloc, *cells, *seed),
        Task::Upgrade(file) => upgraded_file(alloc, file, files),
    }
}

#[tactic(auto, using(crate::proofs::CallLemmas::document_accepts, crate::proofs::CallLemmas::stops_reading))]
fn run<S: Source, F: Files, P: Spawner>(
    alloc: Global,
    file: Option<&Text>,
    input: &mut S,
    files: &mut F,
    programs: &mut P,
) -> Result<Bytes, Status>
    ensures comes { IfOk result (RunsTo (seen_files F.file_of F.faults files.old files.new) (seen S.left S.faults input.old input.new) (seen_runs P.runs programs.old programs.new) (option_copied file.entry)) }
    ensures stops { IfErr result (StopsRun (seen_files F.file_of F.faults files.old files.new) (seen S.left S.faults input.old input.new) (option_copied file.entry)) }
    ensures unrun { IfErr result (λ status. RunsNothingBy status (seen_runs P.runs programs.old programs.new)) }
    ensures asks { AsksFor (option_copied file.entry) (F.asked files.old) (F.asked files.new) }
    ensures stays { (n : List ℕ) → F.file_of files.new n ≡ F.file_of files.old n }
{
    let document = document_of(alloc, file, files)?;
    let bytes = read_to_end(alloc, input, LIMIT)?;
    run_lines(alloc, document, bytes.as_slice(), programs)
}

/// The printing of the history of the document's lines and those that the bytes are.
fn run_lines<P: Spawner>(
    alloc: Global,
    document: Document,
    bytes: &[u8],
    programs: &mut P,
) -> Result<Bytes, Status>
    requires few { length document.builtins ≤ 65536 }
    requires words { HasWords document.loaders }
    requires fits { length bytes.now ≤ limit }
    ensures comes { IfOk result (GivesRun document bytes.now (P.runs programs.old) (P.runs programs.new)) }
    ensures stops { IfErr result (RefusesLines bytes.now) }
    ensures unrun { IfErr result (λ status. RunsNothingBy status (seen_runs P.runs programs.old programs.new)) }
{
    let lines = read_lines(alloc, bytes)?;
    let core = history(alloc, document, &lines, programs)?;
    Ok(print(alloc, &core)?)
}
