ghost use Rattle.std.specs.Prelude.{◌≡◌, ◌<◌, ◌≤◌, codes, length, IfOk};
ghost use Rattle.std.specs.declared.result.Result.TheVariants.{Ok as Ended};
ghost use Rattle.nb_value.specs.declared.outcome.Answer.TheVariants.{Failure};
ghost use Rattle.nb_value.specs.Json.{IsJsonOf, FitsLimits, IsTextCause};
ghost use Rattle.nb_io.specs.Causes.{Rose};
ghost use Rattle.nb_history.specs.Loaders.{GivesOutput, IsAnswerOf};
ghost use Rattle.nb_loader.specs.Runs.{RunsOnce};

use nb_io::{ChildEnd, SpawnFail, Spawner};
use nb_value::{Answer, Argv, JsonFail, Text, Value};
use std::alloc::{AllocError, Global};

/// The most bytes that a program may write.
const OUTPUT_LIMIT: usize = 65_536;

/// The answer of one run of a program. It fails only without memory, and then the program may have run.
pub fn answer_of<P: Spawner>(
    alloc: Global,
    argv: &Argv,
    programs: &mut P,
) -> Result<Answer, AllocError>
    requires { 0 < length argv.now }
    ensures ran { RunsOnce argv.now (P.runs programs.old) (P.runs programs.new) result }
    ensures later { P.faults programs.old ≤ P.faults programs.new }
    ensures spawn { IfOk result (λ answer. answer ≡ Failure (codes "spawn") → Rose (P.faults programs.old) (P.faults programs.new)) }
{
    let run = programs.run(argv, OUTPUT_LIMIT);
    answer_to(alloc, &run)
}

/// What a run answers.
fn answer_to(alloc: Global, run: &Result<ChildEnd, SpawnFail>) -> Result<Answer, AllocError>
    ensures { IfOk result (λ answer. IsAnswerOf run.now answer) }
{
    match run {
        Ok(end) => answer_at(alloc, end),
        Err(SpawnFail::Failed) => failure(alloc, "spawn"),
        Err(SpawnFail::TooLong) => failure(alloc, "output"),
        Err(SpawnFail::Memory) => Err(AllocError),
    }
}

/// What the end of a program answers.
fn answer_at(alloc: Global, end: &ChildEnd) -> Result<Answer, AllocError>
    ensures { IfOk result (λ answer. IsAnswerOf (Ended end.now) answer) }
{
    let status = end.status;
    if status == 0 {
        return answer_in(alloc, end.output.as_slice());
    }
    let text = format!(in alloc; "status {status}")?;
    Ok(Answer::Failure(Text::from_string(text)))
}

/// What an output answers: the value that it is the JSON of.
fn answer_in(alloc: Global, output: &[u8]) -> Result<Answer, AllocError>
    ensures { IfOk result (λ answer. GivesOutput output.now answer) }
{
    match Value::from_json(alloc, output) {
        Ok(value) => Ok(Answer::Value(value)),
        Err(JsonFail::Memory) => Err(AllocError),
        Err(_) => failure(alloc, "output"),
    }
}

/// The failure for this reason.
fn failure(alloc: Global, reason: &str) -> Result<Answer, AllocError>
    ensures { IfOk result (λ answer. answer ≡ Failure reason.now) }
{
    Ok(Answer::Failure(Text::from_str(alloc, reason)?))
}
