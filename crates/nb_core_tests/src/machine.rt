//! A machine with nothing in it, one that is full, work that an edit makes stale, and a loader's answer.
use nb_core::{Core, Placed, Shown};
use nb_eval::{Work, WorkDone, evaluate};
use nb_log::{Entry, Event, Refusal, push_entries};
use nb_parser::parse_cell;
use nb_settle::settle;
use nb_sheet::Edit;
use nb_syntax::Cell;
use nb_value::{Answer, Bytes, Pairs, Value};
use std::alloc::Global;
use std::mem::drop;
use std::test::Fail;

pub(crate) fn cell(alloc: Global, text: &str) -> Result<Cell, Fail> {
    match parse_cell(alloc, text) {
        Ok(cell) => Ok(cell),
        Err(_) => Err("refused".into()),
    }
}

// The place of an edit's entry.
pub(crate) fn edit(core: &mut Core, edit: Edit) -> Result<u64, Fail> {
    match core.event(0, Event::Edit(edit)) {
        Ok(place) => Ok(place),
        Err(back) => {
            drop(back);
            Err("memory".into())
        }
    }
}

// The place of the entry of an added cell.
pub(crate) fn add(alloc: Global, core: &mut Core, text: &str) -> Result<u64, Fail> {
    let cell = cell(alloc, text)?;
    edit(
        core,
        Edit::AddCell {
            module: 0,
            cell,
            observed: true,
        },
    )
}

fn done_of(alloc: Global, work: Work) -> Result<WorkDone, Fail> {
    match work {
        Work::Direct(outcome) => Ok(WorkDone::Direct(outcome)),
        Work::Run(segment) => match evaluate(alloc, segment) {
            Ok(finished) => Ok(WorkDone::Ran(finished)),
            Err(back) => {
                drop(back);
                Err("memory".into())
            }
        },
    }
}

// The least ready variable's work, done.
fn first_done(alloc: Global, core: &Core) -> Result<WorkDone, Fail> {
    match core.next_ready() {
        None => Err("nothing is ready".into()),
        Some(var) => {
            let work = core.segment(var)?;
            done_of(alloc, work)
        }
    }
}

// What work comes to that was done of a variable's first definition, after its second one.
fn outdated(alloc: Global, core: &mut Core) -> Result<Placed, Fail> {
    add(alloc, core, "x = 1")?;
    let done = first_done(alloc, core)?;
    let cell = cell(alloc, "x = 2");
    let second = match cell {
        Ok(cell) => edit(core, Edit::Define { variable: 1, cell }),
        Err(fail) => Err(fail),
    };
    let placed = core.complete(1, 2, done);
    second?;
    match placed {
        Ok(placed) => Ok(placed),
        Err(back) => {
            drop(back);
            Err("memory".into())
        }
    }
}

fn is_number(shown: Shown<'_>, n: i64) -> bool {
    match shown {
        Shown::Value(Value::Int(m)) => *m == n,
        _ => false,
    }
}

#[test]
fn a_second_definition_makes_work_stale(rt: HostRuntime) -> Result<(), Fail> {
    let alloc = rt.alloc();
    let mut core = Core::new(alloc, Pairs::new(alloc))?;
    let placed = outdated(alloc, &mut core)?;
    assert_eq!(rt; placed, Placed::Stale { held: 2, now: 4 });
    assert!(rt; matches!(core.shown(1), Shown::Waiting));
    settle(alloc, &mut core)?;
    assert!(rt; is_number(core.shown(1), 2));
    assert!(rt; matches!(core.shown(2), Shown::Idle));
    assert_eq!(rt; core.log().len(), 5);
    Ok(())
}

// The place of a loader's answer of 5 to the least live ticket, and its key.
fn answer_of_five(core: &mut Core) -> Result<u64, Fail> {
    if !core.loadable() {
        return Err("not loadable".into());
    }
    let ticket = match core.live_ticket(0) {
        None => return Err("nothing is asked for".into()),
        Some((ticket, key)) if key.as_str() == "k" => ticket,
        Some(_) => return Err("another key".into()),
    };
    match core.loaded(ticket, Answer::Value(Value::Int(5))) {
        Ok(place) => Ok(place),
        Err(back) => {
            drop(back);
            Err("memory".into())
        }
    }
}

#[test]
fn a_loader_answers_a_fetch(rt: HostRuntime) -> Result<(), Fail> {
    let alloc = rt.alloc();
    let mut core = Core::new(alloc, Pairs::new(alloc))?;
    add(alloc, &mut core, "x = fetch(\"k\") + 1")?;
    assert!(rt; !core.loadable());
    assert_eq!(rt; core.ready_from(1), Some(1));
    assert_eq!(rt; core.ready_from(2), None);
    settle(alloc, &mut core)?;
    let place = answer_of_five(&mut core)?;
    assert_eq!(rt; place, 4);
    assert!(rt; core.live_ticket(0).is_none());
    settle(alloc, &mut core)?;
    assert!(rt; is_number(core.shown(1), 6));
    Ok(())
}

// Why the entry at a place is a refusal, if it is one.
fn refusal_at(core: &Core, place: u64) -> Option<Refusal> {
    match core.log().get(place) {
        Some(Entry::Refused { reason, .. }) => Some(*reason),
        _ => None,
    }
}

#[test]
fn a_full_log_refuses(rt: HostRuntime) -> Result<(), Fail> {
    let alloc = rt.alloc();
    let mut core = Core::new(alloc, Pairs::new(alloc))?;
    for _ in 0..243 {
        add(alloc, &mut core, "range(0, 16383)")?;
        settle(alloc, &mut core)?;
    }
    assert_eq!(rt; core.log().size(), 243 * (55 + 11 + 16_396));
    let place = add(alloc, &mut core, "1")?;
    assert_eq!(rt; place, 3 * 243 + 1);
    assert!(rt; matches!(refusal_at(&core, place), Some(Refusal::LogFull)));
    assert_eq!(rt; core.log().len(), place);
    Ok(())
}

#[test]
fn an_empty_machine_shows_nothing(rt: HostRuntime) -> Result<(), Fail> {
    let core = Core::new(rt.alloc(), Pairs::new(rt.alloc()))?;
    assert_eq!(rt; core.sheet().builtins().len(), 0);
    assert_eq!(rt; core.sheet().rows().len(), 0);
    assert_eq!(rt; core.log().len(), 0);
    assert_eq!(rt; core.start(1), 0);
    assert!(rt; core.next_ready().is_none());
    assert!(rt; core.outcome(1).is_none());
    assert!(rt; !core.wanted(1));
    Ok(())
}

const REFUSED: &str =
    "[\"refused\",0,4,\"TooManyVariables\",{\"cell\":\"x = 1\",\"do\":\"cell\",\"module\":0,\"observed\":true}]\n";

#[test]
fn a_cell_too_many_is_refused(rt: HostRuntime) -> Result<(), Fail> {
    let alloc = rt.alloc();
    let mut core = Core::new(alloc, Pairs::new(alloc))?;
    for _ in 0..1024 {
        add(alloc, &mut core, "1")?;
    }
    let last = core.log().len();
    let place = add(alloc, &mut core, "x = 1")?;
    assert_eq!(rt; place, last + 1);
    assert_eq!(rt; core.log().len(), last + 1);
    assert_eq!(rt; core.sheet().rows().len(), 1024);
    let mut text = Bytes::new(alloc);
    push_entries(alloc, &mut text, &core.log().as_slice()[last as usize..])?;
    assert!(rt; text.as_slice() == REFUSED.as_bytes());
    Ok(())
}
