ghost use Rattle.std.specs.Prelude.{◌≡◌, ◌<◌, ◌+◌, ◌++◌, length, All, IfOk};
ghost use Rattle.nb_make.specs.Made.{made, cell_lines, last_lines, line};

use crate::cell::{cell_of, number_cell};
use crate::draws::{drawn, next};
use nb_lines::{ScriptLine, Scripts};
use nb_log::Event;
use nb_sheet::Edit;
use nb_value::Items;
use std::alloc::{AllocError, Global};

/// The lines of the notebook of `n` cells that is made of a seed: the cells, three frames, a new definition of the
/// first cell, and a rest.
///
/// It takes time and memory linear in `n`, and fails only without memory.
#[tactic(auto, unfolding(crate::specs::Made::made), using(crate::proofs::MadeLemmas::made_editors, crate::proofs::MadeLemmas::made_count))]
pub fn make(alloc: Global, n: u32, seed: u32) -> Result<Scripts, AllocError>
    ensures lines { IfOk result (λ lines. lines ≡ made n seed) }
    // Each line is that of one of eight editors.
    ensures editors { IfOk result (All (λ s. s.editor < 8)) }
    ensures count { IfOk result (λ lines. length lines ≡ n + 5) }
{
    let mut lines = cell_lines(alloc, n, seed)?;
    lines.append(last_lines(alloc, n)?)?;
    Ok(lines)
}

/// The lines of the first `n` cells.
#[tactic(auto, using(crate::proofs::MadeLemmas::after_cell, crate::proofs::MadeLemmas::this_cell, crate::proofs::MadeLemmas::more_lines))]
fn cell_lines(alloc: Global, n: u32, seed: u32) -> Result<Scripts, AllocError>
    ensures { IfOk result (λ lines. lines ≡ cell_lines n seed) }
{
    let mut lines = Items::new(alloc);
    let mut state = seed as u64;
    for k in 0..n {
        let first = next(state);
        let second = next(first);
        let third = next(second);
        let number = k as u64 + 1;
        let cell = cell_of(alloc, number, drawn(first), drawn(second), drawn(third))?;
        lines.push(line(Event::Edit(Edit::AddCell {
            module: 0,
            cell,
            observed: true,
        })))?;
        state = third;
    }
    Ok(lines)
}

/// The lines that end every made notebook.
fn last_lines(alloc: Global, n: u32) -> Result<Scripts, AllocError>
    ensures { IfOk result (λ lines. lines ≡ last_lines n) }
{
    let cell = number_cell(alloc, 1, n as u64)?;
    let mut lines = Items::new(alloc);
    lines.push(line(Event::Frame))?;
    lines.push(line(Event::Frame))?;
    lines.push(line(Event::Frame))?;
    lines.push(line(Event::Edit(Edit::Redefine { module: 0, cell })))?;
    lines.push(line(Event::Rest))?;
    Ok(lines)
}

/// A line of editor 0.
fn line(event: Event) -> ScriptLine
    ensures { result ≡ line event }
{
    ScriptLine { editor: 0, event }
}
