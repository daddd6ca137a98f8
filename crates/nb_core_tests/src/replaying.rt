//! What a log leaves, worked out anew from the log alone, beside the core that made it.
use crate::machine::{add, cell, edit};
use nb_core::{Core, Reading, reading};
use nb_log::{Event, Target};
use nb_runs::starts::start_at;
use nb_settle::settle;
use nb_sheet::Edit;
use nb_value::{Answer, Outcome, Pairs, Text, Tree, Value};
use std::alloc::{AllocError, Global};
use std::mem::drop;
use std::test::Fail;

// What the core's log leaves.
fn read(alloc: Global, core: &Core) -> Result<Reading, AllocError> {
    reading(alloc, core.log(), core.sheet().builtins())
}

// The number of a variable's start, 0 for an idle one.
fn number(left: &Reading, var: u32) -> u64 {
    match start_at(&left.starts, var) {
        None => 0,
        Some(start) => start.number(),
    }
}

// The outcome that a variable shows, if it shows one.
fn outcome(left: &Reading, var: u32) -> Option<&Outcome> {
    match start_at(&left.starts, var) {
        None => None,
        Some(start) => start.shown(),
    }
}

fn is_number(shown: Option<&Outcome>, n: i64) -> bool {
    match shown {
        Some(Outcome::Value(Value::Int(m))) => *m == n,
        _ => false,
    }
}

// Whether a variable shows a number in the core.
fn shows_now(core: &Core, var: u32, n: i64) -> bool {
    is_number(core.outcome(var), n)
}

// Whether a variable has the start that it has in the core, and shows the same.
fn agrees(core: &Core, left: &Reading, var: u32) -> bool {
    let same = match (core.outcome(var), outcome(left, var)) {
        (None, None) => true,
        (Some(a), Some(b)) => a.same(b),
        _ => false,
    };
    same && core.start(var) == number(left, var)
}

#[test]
fn one_cell_is_read_again(rt: HostRuntime) -> Result<(), Fail> {
    let alloc = rt.alloc();
    let mut core = Core::new(alloc, Pairs::new(alloc))?;
    add(alloc, &mut core, "x = 1 + 2")?;
    settle(alloc, &mut core)?;
    assert_eq!(rt; core.log().len(), 3);
    let left = read(alloc, &core)?;
    assert!(rt; is_number(outcome(&left, 1), 3));
    assert_eq!(rt; number(&left, 1), 2);
    assert_eq!(rt; left.starts.len(), 1);
    assert!(rt; !left.disposed);
    Ok(())
}

// Does what is ready once an event is in.
fn done(
    alloc: Global,
    core: &mut Core,
    placed: Result<u64, (Event, AllocError)>,
) -> Result<(), Fail> {
    match placed {
        Ok(_) => Ok(settle(alloc, core)?),
        Err(back) => {
            drop(back);
            Err("memory".into())
        }
    }
}

// The fetch with the key "k" is answered with 5.
fn answer_five(alloc: Global, core: &mut Core) -> Result<(), Fail> {
    let target = Target::Key(Text::from_str(alloc, "k")?);
    let answer = Answer::Value(Value::Int(5));
    let placed = core.event(0, Event::Settle { target, answer });
    done(alloc, core, placed)
}

fn frame(alloc: Global, core: &mut Core) -> Result<(), Fail> {
    let placed = core.event(0, Event::Frame);
    done(alloc, core, placed)
}

// A cell with a cleanup that is defined once more, one that uses it and fetches, and a generator over two frames.
fn run(alloc: Global, core: &mut Core) -> Result<(), Fail> {
    add(alloc, core, "x = { cleanup 7; return 1; }")?;
    add(alloc, core, "y = x + fetch(\"k\")")?;
    add(
        alloc,
        core,
        "n = { let i = 0; while (true) { yield i; i = i + 1; } }",
    )?;
    settle(alloc, core)?;
    let cell = cell(alloc, "x = 2")?;
    edit(core, Edit::Define { variable: 1, cell })?;
    settle(alloc, core)?;
    answer_five(alloc, core)?;
    frame(alloc, core)?;
    frame(alloc, core)
}

// Whether the log leaves the three variables as they are in the core, and so many tickets.
fn is_read(alloc: Global, core: &Core, tickets: usize, disposed: bool) -> Result<bool, AllocError> {
    let left = read(alloc, core)?;
    Ok(
        (1..4).all(|v| agrees(core, &left, v))
            && left.tickets.len() == tickets
            && left.disposed == disposed,
    )
}

#[test]
fn a_run_is_read_again(rt: HostRuntime) -> Result<(), Fail> {
    let alloc = rt.alloc();
    let mut core = Core::new(alloc, Pairs::new(alloc))?;
    run(alloc, &mut core)?;
    assert!(rt; shows_now(&core, 2, 7) && shows_now(&core, 3, 2));
    assert!(rt; is_read(alloc, &core, 2, false)?);
    let placed = core.event(0, Event::Dispose);
    done(alloc, &mut core, placed)?;
    assert!(rt; is_read(alloc, &core, 2, true)?);
    Ok(())
}
