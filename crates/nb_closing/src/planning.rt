//! The steps by which a log closes, over a wave that says nothing yet.

ghost use Rattle.std.specs.Prelude.{◌≡◌, ◌<◌, ◌+◌, ◌^◌, ℕ, Some, map, slice_get, IfOk};
ghost use Rattle.nb_wave.specs.declared.step.Step.{Step as WaveStepValue};
ghost use Rattle.nb_wave.specs.Wave.{no_rows};
ghost use Rattle.nb_history.specs.Reading.{Reading};
ghost use Rattle.nb_closing.specs.Ties.{all_ties};
ghost use Rattle.nb_closing.specs.Sites.{IsScene};
ghost use Rattle.nb_closing.specs.Quiet.{loud_vars};
ghost use Rattle.nb_closing.specs.Told.{step_in, StartsIn};
ghost use Rattle.nb_closing.specs.Touched.{AreTouched};
ghost use Rattle.nb_closing.specs.Plan.{Plans};

use crate::site::Moment;
use crate::step::Step;
use crate::telling::tell;
use crate::ties::Ties;
use crate::touching::touched;
use nb_runs::Started;
use nb_sheet::Sheet;
use nb_wave::{Step as WaveStep, Wave};
use std::alloc::{AllocError, Global};

/// A step with what its start rests on.
fn step_of(alloc: Global, wave: &Wave, step: WaveStep) -> Result<Step, AllocError>
    requires { StartsIn wave.now.rows step }
    ensures { IfOk result (λ s. s ≡ step_in wave.now.rows step) }
{
    match step {
        WaveStep::Left(v) => Ok(Step::Leaves(v)),
        WaveStep::Pending(v) => {
            let kept = wave.kept(v).unwrap();
            Ok(Step::Starts(v, kept.copy(alloc)?))
        }
    }
}

/// The steps with what their starts rest on.
fn steps_of(alloc: Global, wave: &Wave, steps: &[WaveStep]) -> Result<Vec<Step>, AllocError>
    requires { (i : ℕ) (s : WaveStepValue) → slice_get steps.now i ≡ Some s → StartsIn wave.now.rows s }
    ensures { IfOk result (λ all. all.items ≡ map (step_in wave.now.rows) steps.now) }
{
    let mut all = Vec::new(alloc);
    for step in steps {
        all.push(step_of(alloc, wave, *step)?)?;
    }
    Ok(all)
}

/// The steps by which a log closes, where its reading has this sheet, starts that rest on what these do, and the sites of
/// the moment, and the variables are marked that are touched. An undo of the wave takes back what it did to it.
fn steps_by(
    alloc: Global,
    wave: &mut Wave,
    sheet: &Sheet,
    ties: &Vec<Ties>,
    starts: &Vec<Option<Started>>,
    moment: &Moment,
    touched: &[bool],
) -> Result<Vec<Step>, AllocError>
    requires ties { ties.now.items ≡ all_ties sheet.now.sheet }
    requires touched { AreTouched sheet.now.sheet (loud_vars sheet.now.sheet starts.now.items moment.now) touched.now }
    requires rows { wave.old.rows ≡ no_rows }
    requires place { moment.now.place + 2048 < 2 ^ 64 }
    ensures plans { IfOk result (λ steps. (r : Reading) → IsScene r sheet.now.sheet starts.now.items moment.now → Plans r steps.items) }
    ensures marked { wave.new.marked ≡ wave.old.marked }
{
    tell(alloc, wave, sheet, ties, starts, moment, touched)?;
    let steps = wave.close(moment.place)?;
    let all = steps_of(alloc, wave, &steps)?;
    Ok(all)
}

/// The steps by which a log closes, where its reading has this sheet, starts that rest on what these do, and the sites of
/// the moment: none where no variable is touched. It fails only without memory. An undo of the wave takes back what it
/// did to it.
pub fn planned(
    alloc: Global,
    wave: &mut Wave,
    sheet: &Sheet,
    ties: &Vec<Ties>,
    starts: &Vec<Option<Started>>,
    moment: &Moment,
) -> Result<Vec<Step>, AllocError>
    requires ties { ties.now.items ≡ all_ties sheet.now.sheet }
    requires rows { wave.old.rows ≡ no_rows }
    requires place { moment.now.place + 2048 < 2 ^ 64 }
    ensures plans { IfOk result (λ steps. (r : Reading) → IsScene r sheet.now.sheet starts.now.items moment.now → Plans r steps.items) }
    ensures marked { wave.new.marked ≡ wave.old.marked }
{
    match touched(alloc, sheet, ties, starts, moment)? {
        None => Ok(Vec::new(alloc)),
        Some(touched) => steps_by(alloc, wave, sheet, ties, starts, moment, &touched),
    }
}
