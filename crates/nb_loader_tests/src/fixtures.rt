//! Loaders, the ends of their programs, and cells.
ghost use Rattle.std.specs.Prelude.{◌<◌, length, IfOk};
ghost use Rattle.nb_doc.specs.Loading.{HasWords};

use nb_core::Core;
use nb_doc::{Loader, Loaders};
use nb_io::{ChildEnd, ChildEnds, MemSpawner};
use nb_log::Event;
use nb_parser::parse_cell;
use nb_sheet::Edit;
use nb_value::{Argv, Bytes, Items, Numbers, Text};
use std::alloc::{AllocError, Global};
use std::mem::drop;
use std::test::Fail;

// How a program ends: its status, and an output of so many spaces and then a text.
pub(crate) struct End {
    pub status: i64,
    pub spaces: usize,
    pub text: &'static str,
}

fn loader(alloc: Global, key: &str, word: &str) -> Result<Loader, AllocError>
    ensures { IfOk result (λ loader. 0 < length loader.argv) }
{
    let key = Text::from_str(alloc, key)?;
    let words = vec![in alloc; Text::from_str(alloc, word)?]?;
    Ok(Loader {
        key,
        argv: Argv::from_vec(words),
    })
}

// Loaders for the keys `rows` and `bad`.
pub(crate) fn loaders(alloc: Global) -> Result<Loaders, AllocError>
    ensures { IfOk result HasWords }
{
    let mut loaders = Items::new(alloc);
    loaders.push(loader(alloc, "rows", "echo")?)?;
    loaders.push(loader(alloc, "bad", "sh")?)?;
    Ok(loaders)
}

fn end_of(alloc: Global, end: &End) -> Result<ChildEnd, AllocError> {
    let mut output = Bytes::from_vec(vec![in alloc; b' '; end.spaces]?);
    output.append(end.text.as_bytes())?;
    Ok(ChildEnd {
        status: end.status,
        output,
    })
}

// Programs that end so, one after another, but for the calls that fail.
pub(crate) fn programs(
    alloc: Global,
    ends: &[End],
    failing: &[u64],
) -> Result<MemSpawner, AllocError> {
    let mut given = Vec::new(alloc);
    for end in ends {
        given.push(end_of(alloc, end)?)?;
    }
    let failing = Numbers::from_vec(Vec::from_slice(alloc, failing)?);
    Ok(MemSpawner::new(alloc, ChildEnds::from_vec(given), failing))
}

// Adds an observed cell.
pub(crate) fn add(alloc: Global, core: &mut Core, text: &str) -> Result<(), Fail> {
    let cell = match parse_cell(alloc, text) {
        Ok(cell) => cell,
        Err(_) => return Err("refused".into()),
    };
    let edit = Edit::AddCell {
        module: 0,
        cell,
        observed: true,
    };
    match core.event(0, Event::Edit(edit)) {
        Ok(_) => Ok(()),
        Err(back) => {
            drop(back);
            Err("memory".into())
        }
    }
}
