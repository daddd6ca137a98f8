//! What a variable rests on now.

ghost use Rattle.std.specs.Prelude.{◌≡◌, ◌≤◌, length, IfOk};
ghost use Rattle.nb_history.specs.Reading.{Reading};
ghost use Rattle.nb_history.specs.Rules.{footing as footing_now};
ghost use Rattle.nb_runs.specs.Footings.{footing_of, IsMarked};
ghost use Rattle.nb_closing.specs.Ties.{all_ties};

use crate::site::sites;
use crate::telling::present;
use crate::ties::Ties;
use nb_runs::Started;
use nb_sheet::Sheet;
use nb_wave::Footing;
use std::alloc::{AllocError, Global};

/// What a variable of a sheet rests on now, in any reading with this sheet and these starts. It fails only without memory.
/// It costs a look at each start, and at what the variable needs.
pub fn footing(
    alloc: Global,
    sheet: &Sheet,
    ties: &Vec<Ties>,
    starts: &Vec<Option<Started>>,
    var: u32,
) -> Result<Footing, AllocError>
    requires ties { ties.now.items ≡ all_ties sheet.now.sheet }
    requires low { 1 ≤ var }
    requires there { var ≤ length sheet.now.sheet.rows }
    ensures footing { IfOk result (λ f. (r : Reading) → r.sheet ≡ sheet.now.sheet → r.starts ≡ starts.now.items → footing_of f ≡ footing_now r var) }
    ensures marked { IfOk result IsMarked }
{
    let sites = sites(alloc, starts)?;
    present(alloc, sheet, &ties[var as usize - 1], &sites, var)
}
