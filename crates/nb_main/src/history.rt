//! The history of a run's lines.
ghost use Rattle.std.specs.Prelude.{◌≡◌, ◌<◌, ◌≤◌, ◌++◌, ◌∷◌, [], All, IfOk, IfErr, OnOk, length};
ghost use Rattle.nb_history.specs.History.{standing};
ghost use Rattle.nb_history.specs.Log.{admit, NothingReady};
ghost use Rattle.nb_core.specs.Core.{Gains};
ghost use Rattle.nb_lines.specs.Lines.{script_lines};
ghost use Rattle.nb_doc.specs.Loading.{HasWords};
ghost use Rattle.nb_loader.specs.Loads.{as_loaders};
ghost use Rattle.nb_main.specs.Outcome.{opening_lines};
ghost use Rattle.nb_main.specs.Run.{AwaitsLine, Goes, HasHistory};

use nb_core::Core;
use nb_doc::{Document, Loaders};
use nb_io::Spawner;
use nb_lines::{ScriptLine, Scripts};
use nb_loader::{LoadStep, load_one};
use nb_log::Event;
use nb_settle::Settler;
use nb_value::{Items, Tree};
use std::alloc::{AllocError, Global};
use std::mem::drop;

/// The machine after the document's lines, as lines of editor 0, and then these, each taken once the log rests and no
/// loader is left to run: its log is their serial history over the document's builtins, with its loaders.
pub fn history<P: Spawner>(
    alloc: Global,
    document: Document,
    lines: &Scripts,
    programs: &mut P,
) -> Result<Core, AllocError>
    requires few { length document.builtins ≤ 65536 }
    requires words { HasWords document.loaders }
    requires low { All (λ s. s.editor < 8) lines.now }
    ensures builtins { IfOk result (λ core. core.builtins ≡ document.builtins) }
    ensures history { IfOk result (λ core. HasHistory document.builtins (as_loaders document.loaders) (opening_lines document.lines ++ script_lines lines.now) (P.runs programs.old) (P.runs programs.new) core.log) }
{
    let mut core = Core::new(alloc, document.builtins)?;
    let mut settler = Settler::new(alloc);
    take_events(
        alloc,
        &mut core,
        &mut settler,
        &document.loaders,
        &document.lines,
        programs,
    )?;
    take_scripts(
        alloc,
        &mut core,
        &mut settler,
        &document.loaders,
        lines,
        programs,
    )?;
    drop(settler);
    Ok(core)
}

/// Takes a document's lines.
fn take_events<P: Spawner>(
    alloc: Global,
    core: &mut Core,
    settler: &mut Settler,
    loaders: &Loaders,
    events: &Items<Event>,
    programs: &mut P,
) -> Result<(), AllocError>
    requires words { HasWords loaders.now }
    requires awaits { AwaitsLine (as_loaders loaders.now) core.old }
    ensures goes { OnOk result (Goes (as_loaders loaders.now) (opening_lines events.now) core.old core.new (P.runs programs.old) (P.runs programs.new)) }
    ensures awaits { OnOk result (AwaitsLine (as_loaders loaders.now) core.new) }
{
    for event in events.as_slice() {
        let event = event.copy(alloc)?;
        take_line(
            alloc,
            core,
            settler,
            loaders,
            ScriptLine { editor: 0, event },
            programs,
        )?;
    }
    Ok(())
}

/// Takes the lines of an input.
fn take_scripts<P: Spawner>(
    alloc: Global,
    core: &mut Core,
    settler: &mut Settler,
    loaders: &Loaders,
    lines: &Scripts,
    programs: &mut P,
) -> Result<(), AllocError>
    requires words { HasWords loaders.now }
    requires low { All (λ s. s.editor < 8) lines.now }
    requires awaits { AwaitsLine (as_loaders loaders.now) core.old }
    ensures goes { OnOk result (Goes (as_loaders loaders.now) (script_lines lines.now) core.old core.new (P.runs programs.old) (P.runs programs.new)) }
    ensures awaits { OnOk result (AwaitsLine (as_loaders loaders.now) core.new) }
{
    for line in lines.as_slice() {
        let editor = line.editor;
        let event = line.event.copy(alloc)?;
        take_line(
            alloc,
            core,
            settler,
            loaders,
            ScriptLine { editor, event },
            programs,
        )?;
    }
    Ok(())
}

/// Takes a line, and then does all that is to be done before the next.
fn take_line<P: Spawner>(
    alloc: Global,
    core: &mut Core,
    settler: &mut Settler,
    loaders: &Loaders,
    line: ScriptLine,
    programs: &mut P,
) -> Result<(), AllocError>
    requires low { line.editor < 8 }
    requires words { HasWords loaders.now }
    requires awaits { AwaitsLine (as_loaders loaders.now) core.old }
    ensures goes { OnOk result (Goes (as_loaders loaders.now) ((line.editor, line.event) ∷ []) core.old core.new (P.runs programs.old) (P.runs programs.new)) }
    ensures awaits { OnOk result (AwaitsLine (as_loaders loaders.now) core.new) }
{
    add_line(core, line)?;
    work(alloc, core, settler, loaders, programs)
}

/// Does the work that is ready and runs the loaders' programs, one at a time and each once nothing is ready, until no
/// loader is left to run.
fn work<P: Spawner>(
    alloc: Global,
    core: &mut Core,
    settler: &mut Settler,
    loaders: &Loaders,
    programs: &mut P,
) -> Result<(), AllocError>
    requires { HasWords loaders.now }
    ensures goes { OnOk result (Goes (as_loaders loaders.now) [] core.old core.new (P.runs programs.old) (P.runs programs.new)) }
    ensures awaits { OnOk result (AwaitsLine (as_loaders loaders.now) core.new) }
{
    settler.settle(core)?;
    loop {
        match load_one(alloc, core, loaders, programs)? {
            LoadStep::Placed(_) => settler.settle(core)?,
            LoadStep::Nothing => return Ok(()),
        }
    }
}

/// Takes a line's event.
fn add_line(core: &mut Core, line: ScriptLine) -> Result<(), AllocError>
    requires low { line.editor < 8 }
    requires rest { NothingReady (standing core.old) }
    ensures { OnOk result (Gains core.old (admit (standing core.old) line.editor line.event) core.new) }
{
    taken(core.event(line.editor, line.event))
}

/// Whether the core took an event, without its place, and without the event where memory ran out.
fn taken(answer: Result<u64, (Event, AllocError)>) -> Result<(), AllocError>
    ensures { OnOk result (IfErr answer (λ _. ⊥)) }
{
    match answer {
        Ok(_) => Ok(()),
        Err((event, refused)) => {
            drop(event);
            Err(refused)
        }
    }
}
