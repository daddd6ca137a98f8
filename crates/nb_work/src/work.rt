ghost use Rattle.std.specs.Prelude.{◌≡◌, true, IfOk};
ghost use Rattle.nb_history.specs.Reading.{Reading};
ghost use Rattle.nb_history.specs.Rules.{ready, body_of};
ghost use Rattle.nb_eval.specs.declared.work.Work.TheVariants.{Run};
ghost use Rattle.nb_closing.specs.Ties.{all_ties, ties_of};
ghost use Rattle.nb_work.specs.Over.{IsOver};
ghost use Rattle.nb_work.specs.Tied.{over, answers_in, pulls_in};
ghost use Rattle.nb_work.specs.Work.{work_of as work_at, values_of, body_work as body_work_of};

use crate::inputs::{deciding_error, first, values};
use crate::readiness::{pulls_at, ties_at};
use nb_closing::Ties;
use nb_eval::{Segment, Work};
use nb_runs::Started;
use nb_runs::starts::start_at;
use nb_sheet::{BodyOf, Sheet};
use nb_syntax::Cell;
use nb_value::{Answer, Items, Outcome, Pairs, Tree, Value};
use std::alloc::{AllocError, Global};

/// A copy of the answers to a variable's fetches so far.
fn answers(
    alloc: Global,
    starts: &Vec<Option<Started>>,
    var: u32,
) -> Result<Items<Answer>, AllocError>
    ensures { IfOk result (λ answers. answers ≡ answers_in starts.now.items var) }
{
    match start_at(starts, var) {
        None => Ok(Items::new(alloc)),
        Some(start) => {
            let answers = start.answers().copy(alloc)?;
            Ok(answers)
        }
    }
}

/// The evaluation of a variable's cell over the values of its inputs.
fn run(
    alloc: Global,
    starts: &Vec<Option<Started>>,
    var: u32,
    cell: &Cell,
    inputs: Pairs<Value>,
) -> Result<Work, AllocError>
    ensures { IfOk result (λ work. work ≡ Run (record { cell = cell.now; inputs = inputs; answers = answers_in starts.now.items var; pulls = pulls_in starts.now.items var })) }
{
    Ok(Work::Run(Segment {
        cell: cell.copy(alloc)?,
        inputs,
        answers: answers(alloc, starts, var)?,
        pulls: pulls_at(starts, var),
    }))
}

/// What is to be done for a variable's body over the values of its inputs.
fn body_work(
    alloc: Global,
    sheet: &Sheet,
    starts: &Vec<Option<Started>>,
    var: u32,
    inputs: Pairs<Value>,
) -> Result<Work, AllocError>
    requires { inputs ≡ values_of (over sheet.now.sheet starts.now.items) var }
    ensures { IfOk result (λ work. work ≡ body_work_of (over sheet.now.sheet starts.now.items) var (body_of sheet.now.sheet var)) }
{
    match sheet.variable(var) {
        None => Ok(Work::Direct(Outcome::Value(Value::Null))),
        Some(row) => match &row.body {
            None => Ok(Work::Direct(Outcome::Value(Value::Null))),
            Some(BodyOf::Import { .. }) => {
                let value = first(alloc, &inputs)?;
                Ok(Work::Direct(Outcome::Value(value)))
            }
            Some(BodyOf::Cell(cell)) => {
                let work = run(alloc, starts, var, cell, inputs)?;
                Ok(work)
            }
        },
    }
}

/// What is to be done for a variable of these ties.
fn tied_work(
    alloc: Global,
    sheet: &Sheet,
    tied: &Ties,
    starts: &Vec<Option<Started>>,
    var: u32,
) -> Result<Work, AllocError>
    requires { tied.now ≡ ties_of sheet.now.sheet var }
    ensures { IfOk result (λ work. work ≡ work_at (over sheet.now.sheet starts.now.items) var) }
{
    let error = deciding_error(alloc, sheet, tied, starts, var)?;
    match error {
        Some(error) => Ok(Work::Direct(Outcome::Error(error))),
        None => {
            let inputs = values(alloc, sheet, starts, tied.inputs())?;
            let work = body_work(alloc, sheet, starts, var, inputs)?;
            Ok(work)
        }
    }
}

/// What is to be done for a ready variable. It fails only without memory. It copies the cell, the values of its inputs and the
/// answers so far.
pub fn work_of(
    alloc: Global,
    sheet: &Sheet,
    ties: &Vec<Ties>,
    starts: &Vec<Option<Started>>,
    var: u32,
) -> Result<Work, AllocError>
    requires ties { ties.now.items ≡ all_ties sheet.now.sheet }
    ensures { IfOk result (λ work. (r : Reading) → IsOver r sheet.now.sheet starts.now.items → ready r var ≡ true → work ≡ work_at r var) }
{
    match ties_at(ties, var) {
        None => Ok(Work::Direct(Outcome::Value(Value::Null))),
        Some(tied) => {
            let work = tied_work(alloc, sheet, tied, starts, var)?;
            Ok(work)
        }
    }
}
