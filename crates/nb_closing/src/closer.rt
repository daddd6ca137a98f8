ghost use Rattle.std.specs.Prelude.{◌≡◌, ◌+◌, ◌^◌, ◌<◌, [], IfOk, OnErr};
ghost use Rattle.nb_history.specs.Reading.{Reading};
ghost use Rattle.nb_closing.specs.Ties.{all_ties};
ghost use Rattle.nb_closing.specs.Sites.{IsScene};
ghost use Rattle.nb_closing.specs.Plan.{Plans};

use crate::planning::planned;
use crate::site::Moment;
use crate::step::Step;
use crate::ties::{Ties, tie};
use nb_runs::Started;
use nb_sheet::Sheet;
use nb_wave::Wave;
use std::alloc::{AllocError, Global};
use std::marker::Model;
use std::mem::replace;

/// Who works out what closes after an entry. It knows what the names of a sheet tie its variables to, and contracts see
/// it as the list of these ties, by number.
#[derive(Drop)]
pub struct Closer {
    alloc: Global,
    ties: Vec<Ties>,
    wave: Wave,
}

impl Model for Closer {
    ghost use Rattle.std.specs.Prelude.{◌≡◌, List};
    ghost use Rattle.nb_closing.specs.Ties.{Ties as TiesValue};
    ghost use Rattle.nb_wave.specs.Wave.{no_rows};

    ghost Value = { List TiesValue };

    ghost view = { λ c. c.ties.items };

    ghost invariant = { λ c. (c.wave.rows ≡ no_rows) × (c.wave.marked ≡ no_rows) };
}

impl Closer {
    /// The ties of an empty sheet. It fails only without memory.
    pub fn new(alloc: Global) -> Result<Closer, AllocError>
        ensures { IfOk result (λ closer. closer ≡ []) }
    {
        let wave = Wave::new(alloc)?;
        Ok(Closer {
            alloc,
            ties: Vec::new(alloc),
            wave,
        })
    }

    /// The ties of each variable, by number. It takes no memory.
    pub fn ties(&self) -> &Vec<Ties>
        ensures { result.now.items ≡ self.now }
    {
        &self.ties
    }

    /// Takes over the ties of a sheet, and gives the old ones. It fails only without memory, and then nothing has changed.
    /// It costs what `tie` costs.
    pub fn retie(&mut self, sheet: &Sheet) -> Result<Vec<Ties>, AllocError>
        ensures old { IfOk result (λ old. old.items ≡ self.old) }
        ensures ties { IfOk result (λ old. self.new ≡ all_ties sheet.now.sheet) }
        ensures err { OnErr result (self.new ≡ self.old) }
    {
        let ties = tie(self.alloc, sheet)?;
        Ok(replace(&mut self.ties, ties))
    }

    /// Takes back the ties that another sheet's took the place of. It takes no memory.
    pub fn go_back(&mut self, old: Vec<Ties>)
        ensures { self.new ≡ old.items }
    {
        self.ties = old;
    }

    /// The steps by which a log closes, in their order, where its reading has this sheet, starts that rest on what these
    /// do, and the sites of the moment. It fails only without memory. It costs a look at each input of each variable, and
    /// takes no memory where all are quiet: idle and not wanted, or wanted and started on what they rest on now, and none at
    /// a later pull. Else it also costs a few passes over variables and what they need, a copy of what those that aren't
    /// quiet and all that need them rest on, and what `Wave::close` costs.
    pub fn plan(
        &mut self,
        sheet: &Sheet,
        starts: &Vec<Option<Started>>,
        moment: &Moment,
    ) -> Result<Vec<Step>, AllocError>
        requires ties { self.old ≡ all_ties sheet.now.sheet }
        requires place { moment.now.place + 2048 < 2 ^ 64 }
        ensures plans { IfOk result (λ steps. (r : Reading) → IsScene r sheet.now.sheet starts.now.items moment.now → Plans r steps.items) }
        ensures same { self.new ≡ self.old }
    {
        let steps = planned(
            self.alloc,
            &mut self.wave,
            sheet,
            &self.ties,
            starts,
            moment,
        );
        self.wave.undo();
        steps
    }
}
