ghost use Rattle.std.specs.Prelude.{◌≡◌, ◌+◌, ℕ, length, IfOk};
ghost use Rattle.nb_sheet.specs.Lists.{from_option};
ghost use Rattle.nb_value.specs.declared.value.Value.TheVariants.{Null};
ghost use Rattle.nb_history.specs.Reading.{Reading};
ghost use Rattle.nb_history.specs.Rules.{next, entry_of as evaluated_entry};
ghost use Rattle.nb_eval.specs.Evaluation.{Evaluated, run_end};
ghost use Rattle.nb_eval.specs.Work.{IsOf};
ghost use Rattle.nb_work.specs.Over.{IsOver};
ghost use Rattle.nb_work.specs.Work.{work_of};
ghost use Rattle.nb_work.specs.Notices.{IsNotice, IsEnd, shown_entry as entry_showing};

use crate::readiness::pulls_at;
use nb_eval::{Ending, RunEnd, WorkDone};
use nb_log::Entry;
use nb_runs::Started;
use nb_runs::starts::generates;
use nb_sheet::Sheet;
use nb_value::{Items, Outcome, Text, Tree, Value};
use std::alloc::{AllocError, Global};

/// What a variable's start comes to when its work is done.
#[derive(Debug, Drop)]
pub enum Notice {
    /// It shows an outcome. A generator whose first pull ended without a yield has ended.
    Shows {
        outcome: Outcome,
        cleanups: Items<Value>,
        ends: bool,
    },
    /// It asks for a fetch by this key.
    Asks {
        key: Text,
        cleanups: Items<Value>,
    },
    /// It has no further value.
    Ends {
        cleanups: Items<Value>,
    },
}

/// The entry that shows an outcome.
fn shown_entry(var: u32, outcome: Outcome) -> Entry
    ensures { result ≡ entry_showing var outcome }
{
    match outcome {
        Outcome::Value(value) => Entry::Fulfilled { var, value },
        Outcome::Error(error) => Entry::Rejected { var, error },
    }
}

/// A copy of the last value that was yielded, null where none was.
fn last_copied(alloc: Global, last: &Option<Value>) -> Result<Value, AllocError>
    ensures { IfOk result (λ value. value ≡ from_option Null (λ x. x) last.now) }
{
    match last {
        None => Ok(Value::Null),
        Some(value) => Ok(value.copy(alloc)?),
    }
}

/// The entry where an evaluation is done with a value, of a generator or not, and at its first pull or a later one.
fn done_entry(
    alloc: Global,
    var: u32,
    generator: bool,
    first: bool,
    value: &Value,
) -> Result<Entry, AllocError>
    ensures { IfOk result (λ entry. (t : ℕ) (e : Evaluated) → entry ≡ evaluated_entry t var generator first e (Ending.Done value.now)) }
{
    if !generator {
        Ok(Entry::Fulfilled {
            var,
            value: value.copy(alloc)?,
        })
    } else if first {
        Ok(Entry::Fulfilled {
            var,
            value: Value::Null,
        })
    } else {
        Ok(Entry::Ended { var })
    }
}

/// The entry of what an evaluation gave, of a generator or not, and at its first pull or a later one.
fn ended_entry(
    alloc: Global,
    var: u32,
    ticket: u64,
    generator: bool,
    first: bool,
    end: &RunEnd,
) -> Result<Entry, AllocError>
    ensures { IfOk result (λ entry. (e : Evaluated) → end.now ≡ run_end e → entry ≡ evaluated_entry ticket var generator first e e.ending) }
{
    match &end.ending {
        Ending::Needs(key) => Ok(Entry::Asked {
            var,
            ticket,
            key: key.copy(alloc)?,
        }),
        Ending::Failed(error) => Ok(Entry::Rejected {
            var,
            error: error.copy(alloc)?,
        }),
        Ending::Paused => Ok(Entry::Fulfilled {
            var,
            value: last_copied(alloc, &end.last)?,
        }),
        Ending::Done(value) => {
            let entry = done_entry(alloc, var, generator, first, value)?;
            Ok(entry)
        }
    }
}

/// The entry of a ready variable whose work was done, where the next ticket has this number. It fails only without memory.
/// It copies the outcome.
pub fn entry_of(
    alloc: Global,
    sheet: &Sheet,
    starts: &Vec<Option<Started>>,
    var: u32,
    ticket: u64,
    done: &WorkDone,
) -> Result<Entry, AllocError>
    ensures { IfOk result (λ entry. (r : Reading) → IsOver r sheet.now.sheet starts.now.items → length r.tickets + 1 ≡ ticket → IsOf (work_of r var) done.now → entry ≡ next r var) }
{
    match done {
        WorkDone::Direct(outcome) => {
            let outcome = outcome.copy(alloc)?;
            Ok(shown_entry(var, outcome))
        }
        WorkDone::Ran(finished) => {
            let generator = generates(sheet, var);
            let first = pulls_at(starts, var) == 1;
            let entry = ended_entry(alloc, var, ticket, generator, first, finished.result())?;
            Ok(entry)
        }
    }
}

/// The last value that was yielded, null where none was.
fn last_or_null(last: Option<Value>) -> Value
    ensures { result ≡ from_option Null (λ x. x) last }
{
    match last {
        None => Value::Null,
        Some(value) => value,
    }
}

/// What it comes to that an evaluation is done with a value.
fn done_notice(value: Value, cleanups: Items<Value>, generator: bool, first: bool) -> Notice
    ensures { (e : Evaluated) → e.ending ≡ Ending.Done value → e.cleanups ≡ cleanups → IsEnd generator first e result }
{
    if !generator {
        Notice::Shows {
            outcome: Outcome::Value(value),
            cleanups,
            ends: false,
        }
    } else if first {
        Notice::Shows {
            outcome: Outcome::Value(Value::Null),
            cleanups,
            ends: true,
        }
    } else {
        Notice::Ends { cleanups }
    }
}

/// What it comes to that an evaluation ended, of a generator or not, and at its first pull or a later one.
fn ended_notice(end: RunEnd, generator: bool, first: bool) -> Notice
    ensures { (e : Evaluated) → end ≡ run_end e → IsEnd generator first e result }
{
    let RunEnd {
        last,
        cleanups,
        ending,
        ..
    } = end;
    match ending {
        Ending::Needs(key) => Notice::Asks { key, cleanups },
        Ending::Failed(error) => Notice::Shows {
            outcome: Outcome::Error(error),
            cleanups,
            ends: false,
        },
        Ending::Paused => Notice::Shows {
            outcome: Outcome::Value(last_or_null(last)),
            cleanups,
            ends: false,
        },
        Ending::Done(value) => done_notice(value, cleanups, generator, first),
    }
}

/// What the start of a ready variable comes to whose work was done. It takes no memory.
pub fn notice_of(sheet: &Sheet, starts: &Vec<Option<Started>>, var: u32, done: WorkDone) -> Notice
    ensures { (r : Reading) → IsOver r sheet.now.sheet starts.now.items → IsOf (work_of r var) done → IsNotice r (length r.tickets + 1) var result }
{
    match done {
        WorkDone::Direct(outcome) => Notice::Shows {
            outcome,
            cleanups: Items::new(*starts.allocator()),
            ends: false,
        },
        WorkDone::Ran(finished) => {
            let generator = generates(sheet, var);
            let first = pulls_at(starts, var) == 1;
            ended_notice(finished.into_result(), generator, first)
        }
    }
}
