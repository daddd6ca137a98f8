ghost use Rattle.std.specs.Prelude.{◌≡◌, ◌≤◌, IfOk};
ghost use Rattle.nb_doc.specs.Loading.{HasWords};
ghost use Rattle.nb_loader.specs.Loads.{as_loaders, Steps, SpawnHasCause};
ghost use Rattle.nb_loader.specs.declared.step.LoadStep.TheVariants.{Nothing};

use crate::answer::answer_of;
use crate::step::LoadStep;
use crate::ticket::next_load;
use nb_core::Core;
use nb_doc::Loaders;
use nb_io::Spawner;
use std::alloc::{AllocError, Global};
use std::mem::drop;

/// Runs the program of the least live ticket whose key has a loader, once, and puts its answer into the log. Of several
/// loaders of the key it is the first. `Nothing` comes exactly where no live ticket's key has a loader, or no answer of a
/// loader may come now, as while a variable is ready; then no program is run, and nothing changes.
///
/// The answer is the value that the output is the JSON of, within the limits of values. It is the failure `spawn` where the
/// program didn't start, `status 3` where it ended with 3, and `output` where it ended with 0 and its output is no such
/// value, or where that has more than 65,536 bytes.
///
/// It fails only without memory. Then the core is as it was, but the program may have run. It costs, for each live ticket up
/// to that one, a look at each ticket and at each loader, and time and memory linear in the output.
pub fn load_one<P: Spawner>(
    alloc: Global,
    core: &mut Core,
    loaders: &Loaders,
    programs: &mut P,
) -> Result<LoadStep, AllocError>
    requires { HasWords loaders.now }
    ensures steps { Steps (as_loaders loaders.now) core.old core.new (P.runs programs.old) (P.runs programs.new) result }
    ensures nothing { IfOk result (λ step. step ≡ Nothing → programs.new ≡ programs.old) }
    ensures later { P.faults programs.old ≤ P.faults programs.new }
    ensures spawn { SpawnHasCause core.old core.new (P.faults programs.old) (P.faults programs.new) }
{
    let Some((ticket, argv)) = next_load(core, loaders) else {
        return Ok(LoadStep::Nothing);
    };
    let answer = answer_of(alloc, argv, programs)?;
    match core.loaded(ticket, answer) {
        Ok(place) => Ok(LoadStep::Placed(place)),
        Err((answer, refused)) => {
            drop(answer);
            Err(refused)
        }
    }
}
