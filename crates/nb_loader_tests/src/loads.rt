//! What programs of loaders answer, and when one is run.
ghost use Rattle.nb_doc.specs.Loading.{HasWords};

use crate::fixtures::{End, add, loaders, programs};
use nb_core::Core;
use nb_doc::Loaders;
use nb_io::MemSpawner;
use nb_loader::{LoadStep, load_one};
use nb_log::{Entry, push_entries};
use nb_settle::settle;
use nb_value::{Bytes, Pairs};
use std::alloc::Global;
use std::test::Fail;

// Cells, each added where nothing is to be done any more; how the programs end, but for the calls that fail; and the
// lines of the log without those of edits.
struct Row {
    cells: &'static [&'static str],
    ends: &'static [End],
    failing: &'static [u64],
    log: &'static str,
}

const BOTH: &[&str] = &["rows = fetch(\"rows\")", "bad = fetch(\"bad\")"];

const ROWS: &[Row] = &[
    Row {
        cells: BOTH,
        ends: &[
            End {
                status: 0,
                spaces: 0,
                text: "[1, 2, 3]",
            },
            End {
                status: 1,
                spaces: 0,
                text: "",
            },
        ],
        failing: &[],
        log: "[\"pending\",1,[]]\n[\"asked\",1,1,\"rows\"]\n[\"loaded\",1,\"value\",[1,2,3]]\n[\"fulfilled\",1,[1,2,3]]\n[\"pending\",2,[]]\n[\"asked\",2,2,\"bad\"]\n[\"loaded\",2,\"error\",\"status 1\"]\n[\"rejected\",2,\"FetchFailed\",\"status 1\",null]\n",
    },
    // There are no ends.
    Row {
        cells: BOTH,
        ends: &[],
        failing: &[],
        log: "[\"pending\",1,[]]\n[\"asked\",1,1,\"rows\"]\n[\"loaded\",1,\"error\",\"spawn\"]\n[\"rejected\",1,\"FetchFailed\",\"spawn\",null]\n[\"pending\",2,[]]\n[\"asked\",2,2,\"bad\"]\n[\"loaded\",2,\"error\",\"spawn\"]\n[\"rejected\",2,\"FetchFailed\",\"spawn\",null]\n",
    },
    Row {
        cells: BOTH,
        ends: &[
            End {
                status: 0,
                spaces: 0,
                text: "1.5",
            },
            End {
                status: -1,
                spaces: 0,
                text: "",
            },
        ],
        failing: &[],
        log: "[\"pending\",1,[]]\n[\"asked\",1,1,\"rows\"]\n[\"loaded\",1,\"error\",\"output\"]\n[\"rejected\",1,\"FetchFailed\",\"output\",null]\n[\"pending\",2,[]]\n[\"asked\",2,2,\"bad\"]\n[\"loaded\",2,\"error\",\"status -1\"]\n[\"rejected\",2,\"FetchFailed\",\"status -1\",null]\n",
    },
    // One byte too many.
    Row {
        cells: BOTH,
        ends: &[
            End {
                status: 0,
                spaces: 65_537,
                text: "",
            },
            End {
                status: 0,
                spaces: 0,
                text: "7",
            },
        ],
        failing: &[],
        log: "[\"pending\",1,[]]\n[\"asked\",1,1,\"rows\"]\n[\"loaded\",1,\"error\",\"output\"]\n[\"rejected\",1,\"FetchFailed\",\"output\",null]\n[\"pending\",2,[]]\n[\"asked\",2,2,\"bad\"]\n[\"loaded\",2,\"value\",7]\n[\"fulfilled\",2,7]\n",
    },
    // As many bytes as there may be; and a call that fails, which uses up no end.
    Row {
        cells: &[
            "one = fetch(\"rows\")",
            "two = fetch(\"rows\")",
            "three = fetch(\"rows\")",
        ],
        ends: &[
            End {
                status: 0,
                spaces: 65_535,
                text: "7",
            },
            End {
                status: 0,
                spaces: 0,
                text: "",
            },
        ],
        failing: &[2],
        log: "[\"pending\",1,[]]\n[\"asked\",1,1,\"rows\"]\n[\"loaded\",1,\"value\",7]\n[\"fulfilled\",1,7]\n[\"pending\",2,[]]\n[\"asked\",2,2,\"rows\"]\n[\"loaded\",2,\"error\",\"spawn\"]\n[\"rejected\",2,\"FetchFailed\",\"spawn\",null]\n[\"pending\",3,[]]\n[\"asked\",3,3,\"rows\"]\n[\"loaded\",3,\"error\",\"output\"]\n[\"rejected\",3,\"FetchFailed\",\"output\",null]\n",
    },
    // A key that has no loader waits, and lets the next one go first.
    Row {
        cells: &["other = fetch(\"other\")", "bad = fetch(\"bad\")", "1"],
        ends: &[End {
            status: 0,
            spaces: 0,
            text: " {\"a\": null} ",
        }],
        failing: &[],
        log: "[\"pending\",1,[]]\n[\"asked\",1,1,\"other\"]\n[\"pending\",2,[]]\n[\"asked\",2,2,\"bad\"]\n[\"loaded\",2,\"value\",{\"a\":null}]\n[\"fulfilled\",2,{\"a\":null}]\n[\"pending\",3,[]]\n[\"fulfilled\",3,1]\n",
    },
];

// Does what is ready and runs programs, until nothing is to be done.
fn follow(
    alloc: Global,
    core: &mut Core,
    loaders: &Loaders,
    programs: &mut MemSpawner,
) -> Result<(), Fail>
    requires { HasWords loaders.now }
{
    for _ in 0..10 {
        settle(alloc, core)?;
        if load_one(alloc, core, loaders, programs)? == LoadStep::Nothing {
            return Ok(());
        }
    }
    Err("no end".into())
}

// The lines of the entries that aren't edits.
fn text_of(alloc: Global, entries: &[Entry]) -> Result<Bytes, Fail> {
    let mut text = Bytes::new(alloc);
    for at in 0..entries.len() {
        if !matches!(entries[at], Entry::Edit { .. }) {
            push_entries(alloc, &mut text, &entries[at..at + 1])?;
        }
    }
    Ok(text)
}

fn log_of(alloc: Global, row: &Row) -> Result<Bytes, Fail> {
    let loaders = loaders(alloc)?;
    let mut programs = programs(alloc, row.ends, row.failing)?;
    let mut core = Core::new(alloc, Pairs::new(alloc))?;
    for cell in row.cells {
        add(alloc, &mut core, cell)?;
        follow(alloc, &mut core, &loaders, &mut programs)?;
    }
    text_of(alloc, core.log().as_slice())
}

#[test]
fn programs_answer_fetches(rt: HostRuntime) -> Result<(), Fail> {
    for row in ROWS {
        let log = log_of(rt.alloc(), row)?;
        assert!(rt; log.as_slice() == row.log.as_bytes());
    }
    Ok(())
}

#[test]
fn nothing_runs_while_something_is_ready(rt: HostRuntime) -> Result<(), Fail> {
    let alloc = rt.alloc();
    let loaders = loaders(alloc)?;
    let mut programs = programs(alloc, &[], &[])?;
    let mut core = Core::new(alloc, Pairs::new(alloc))?;
    add(alloc, &mut core, "rows = fetch(\"rows\")")?;
    settle(alloc, &mut core)?;
    add(alloc, &mut core, "1")?;
    let before = core.log().len();
    assert_eq!(rt;
        load_one(alloc, &mut core, &loaders, &mut programs)?,
        LoadStep::Nothing
    );
    assert_eq!(rt; core.log().len(), before);
    settle(alloc, &mut core)?;
    let place = core.log().len() + 1;
    assert_eq!(rt;
        load_one(alloc, &mut core, &loaders, &mut programs)?,
        LoadStep::Placed(place)
    );
    Ok(())
}
