//! What comes of a made notebook.
ghost use Rattle.std.specs.Prelude.{IfErr, IfOk};
ghost use Rattle.nb_main.specs.Answers.{StopsMaking};
ghost use Rattle.nb_main.specs.Made.{MakesTo};

use crate::history::history;
use crate::reading::empty_document;
use crate::status::Status;
use nb_io::{ChildEnds, MemSpawner};
use nb_make::make;
use nb_print::{Making, print_summary};
use nb_value::{Bytes, Numbers};
use std::alloc::{AllocError, Global};

/// The summary of the notebook of so many cells that is made of a seed.
pub fn made(alloc: Global, cells: u32, seed: u32) -> Result<Bytes, Status>
    ensures comes { IfOk result (MakesTo cells seed) }
    ensures stops { IfErr result StopsMaking }
{
    Ok(summary_of(alloc, cells, seed)?)
}

/// Runs the lines that the seed gives, as those of an input are run over no file, and sums their history up.
#[tactic(auto, using(crate::proofs::MadeLemmas::makes))]
fn summary_of(alloc: Global, cells: u32, seed: u32) -> Result<Bytes, AllocError>
    ensures { IfOk result (MakesTo cells seed) }
{
    let lines = make(alloc, cells, seed)?;
    let mut programs = no_programs(alloc);
    let core = history(alloc, empty_document(alloc), &lines, &mut programs)?;
    let making = Making {
        cells,
        seed,
        lines: lines.len() as u64,
    };
    print_summary(alloc, making, &core)
}

/// No program runs here: each call would fail.
fn no_programs(alloc: Global) -> MemSpawner {
    MemSpawner::new(
        alloc,
        ChildEnds::from_vec(Vec::new(alloc)),
        Numbers::from_vec(Vec::new(alloc)),
    )
}
