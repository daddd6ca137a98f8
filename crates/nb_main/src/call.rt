ghost use Rattle.std.specs.Prelude.{◌≡◌, ℕ, List};
ghost use Rattle.nb_main.specs.Task.{file_in, task};
ghost use Rattle.nb_main.specs.Ends.{ended};
ghost use Rattle.nb_main.specs.Answers.{Answers, AsksFor, StaysUnread, seen, seen_files, seen_runs};
ghost use Rattle.nb_main.specs.Causes.{Causes};
ghost use Rattle.nb_main.specs.Notes.{note, Notes};

use crate::notes::tell;
use crate::outcome::text_of;
use crate::status::Status;
use crate::task::read_task;
use nb_io::{Files, Sink, Source, Spawner, write_whole};
use nb_value::Words;
use std::alloc::Global;

/// Does all that the program does: reads the words, the file that they name and the input, runs the lines and the programs of
/// the file's loaders, and writes the history to `out`; or runs the lines of a made notebook and writes their summary; or writes
/// the file's document as one of version 2; or tells on `notes` why it could not. It never waits for another thread, and returns where the objects that are handed in return.
///
/// The document, and all lines, are read and checked before the first is done, and the whole history stands before its
/// first byte is written. A fault of `notes`, and a loader that fails, change no status.
#[tactic(auto, using(crate::proofs::CausesLemmas::causes))]
pub fn notebook<S: Source, F: Files, P: Spawner, K: Sink, E: Sink>(
    alloc: Global,
    words: &Words,
    input: &mut S,
    files: &mut F,
    programs: &mut P,
    out: &mut K,
    notes: &mut E,
) -> Status
    ensures answer { Answers result (record {
      words = words.now;
      input = seen S.left S.faults input.old input.new;
      files = seen_files F.file_of F.faults files.old files.new;
      programs = seen_runs P.runs programs.old programs.new;
      out = seen K.written K.faults out.old out.new;
    }) }
    ensures causes { Causes result (record {
      words = words.now;
      input = seen S.left S.faults input.old input.new;
      files = seen_files F.file_of F.faults files.old files.new;
      programs = seen_runs P.runs programs.old programs.new;
      out = seen K.written K.faults out.old out.new;
    }) }
    ensures asks { AsksFor (file_in words.now) (F.asked files.old) (F.asked files.new) }
    ensures unread { StaysUnread (task words.now) (seen S.left S.faults input.old input.new) }
    ensures stays { (n : List ℕ) → F.file_of files.new n ≡ F.file_of files.old n }
    ensures notes { Notes (note result) (E.written notes.old) (E.written notes.new) (E.faults notes.old) (E.faults notes.new) }
{
    let status = match perform(alloc, words, input, files, programs, out) {
        Ok(()) => Status::Ok,
        Err(status) => status,
    };
    let _ = tell(notes, &status);
    status
}

/// The status of a call that had no memory for its words, told on `notes` as `notebook` tells it. It takes no memory.
pub fn without_words<E: Sink>(notes: &mut E) -> Status
    ensures status { result ≡ Status.Memory }
    ensures notes { Notes (note result) (E.written notes.old) (E.written notes.new) (E.faults notes.old) (E.faults notes.new) }
{
    let _ = tell(notes, &Status::Memory);
    Status::Memory
}

/// Does what the words ask for, or answers the status by which the call ends.
#[tactic(auto, using(crate::proofs::CallLemmas::asks_nothing, crate::proofs::CallLemmas::unread, crate::proofs::CallLemmas::stopped))]
fn perform<S: Source, F: Files, P: Spawner, K: Sink>(
    alloc: Global,
    words: &Words,
    input: &mut S,
    files: &mut F,
    programs: &mut P,
    out: &mut K,
) -> Result<(), Status>
    ensures answer { Answers (ended result) (record {
      words = words.now;
      input = seen S.left S.faults input.old input.new;
      files = seen_files F.file_of F.faults files.old files.new;
      programs = seen_runs P.runs programs.old programs.new;
      out = seen K.written K.faults out.old out.new;
    }) }
    ensures asks { AsksFor (file_in words.now) (F.asked files.old) (F.asked files.new) }
    ensures unread { StaysUnread (task words.now) (seen S.left S.faults input.old input.new) }
    ensures stays { (n : List ℕ) → F.file_of files.new n ≡ F.file_of files.old n }
{
    let task = read_task(alloc, words)?;
    let text = text_of(alloc, &task, input, files, programs)?;
    write_whole(out, text.as_slice())?;
    Ok(())
}
