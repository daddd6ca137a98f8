ghost use Rattle.std.specs.Prelude.{◌≡◌, IfOk, IfErr, OnOk, OnErr, replicate};
ghost use Rattle.nb_sheet.specs.Lists.{put};
ghost use Rattle.nb_wave.specs.Wave.{IsNumber};
ghost use Rattle.nb_runs.specs.RunStates.{idle_state, no_runs, state_in, changed_by, MayCome};

use crate::run_state::{Change, RunState};
use std::alloc::{AllocError, Global};
use std::marker::Model;

/// The states of the variables from 1 to 1,024. Contracts see the list of them.
#[derive(Drop)]
pub struct Runs {
    alloc: Global,
    states: Vec<RunState>,
}

impl Model for Runs {
    ghost use Rattle.std.specs.Prelude.{◌≡◌, List, length};
    ghost use Rattle.std.specs.Coded.{coded_list};
    ghost use Rattle.nb_runs.specs.declared.run_state.RunState.{RunState};
    ghost use Rattle.nb_runs.specs.contracts.run_state.RunState as state;

    ghost Value = { List RunState };

    ghost coded = { coded_list state.the_row.coded };

    ghost view = { λ r. r.states.items };

    ghost invariant = { λ r. length r.states.items ≡ 1024 };
}

/// States of idle variables.
fn idle_states(alloc: Global, n: usize) -> Result<Vec<RunState>, AllocError>
    ensures { IfOk result (λ states. states.items ≡ replicate n idle_state) }
{
    let mut states = Vec::new(alloc);
    for _v in 0..n {
        states.push(RunState::idle(alloc))?;
    }
    Ok(states)
}

impl Runs {
    /// All variables are idle. It fails only without memory.
    pub fn new(alloc: Global) -> Result<Runs, AllocError>
        ensures { IfOk result (λ runs. runs ≡ no_runs) }
    {
        let states = idle_states(alloc, 1024)?;
        Ok(Runs { alloc, states })
    }

    /// A variable's state. It takes no memory.
    pub fn get(&self, var: u32) -> &RunState
        requires { IsNumber var }
        ensures { result.now ≡ state_in self.now var }
    {
        &self.states[var as usize - 1]
    }

    /// Changes a variable's state as an entry does, in constant time on average. It fails only without memory, where an answer
    /// comes; then nothing has changed, and the change comes back.
    pub fn change(&mut self, var: u32, change: Change) -> Result<(), (Change, AllocError)>
        requires number { IsNumber var }
        requires may_come { MayCome change (state_in self.old var) }
        ensures ok { OnOk result (self.new ≡ put self.old var (changed_by change (state_in self.old var))) }
        ensures err { OnErr result (self.new ≡ self.old) }
        ensures back { IfErr result (λ e. e.0 ≡ change) }
    {
        self.states[var as usize - 1].change(self.alloc, change)
    }
}
