//! A program that holds a machine of its own: it adds cells, answers what they fetch, and reads what they show.
use crate::machine::add;
use nb_core::{Core, Shown};
use nb_log::{Event, Target};
use nb_settle::Settler;
use nb_value::{Answer, Pairs, Value};
use std::mem::drop;
use std::test::Fail;

// What a cell of this price and rate shows, once the rate is known.
fn price(core: &Core) -> Option<i64> {
    match core.shown(2) {
        Shown::Value(Value::Int(cents)) => Some(*cents),
        _ => None,
    }
}

// The ticket of a fetch that asks for the rate, if one waits.
fn asks_for_rate(core: &Core) -> Option<u64> {
    match core.live_ticket(0) {
        Some((ticket, key)) if key.as_str() == "rate" => Some(ticket),
        _ => None,
    }
}

// Answers a fetch.
fn answer(core: &mut Core, ticket: u64, cents: i64) -> Result<(), Fail> {
    let settled = core.event(
        0,
        Event::Settle {
            target: Target::Ticket(ticket),
            answer: Answer::Value(Value::Int(cents)),
        },
    );
    match settled {
        Ok(_) => Ok(()),
        Err(back) => {
            drop(back);
            Err("memory".into())
        }
    }
}

#[test]
fn a_program_holds_a_machine(rt: HostRuntime) -> Result<(), Fail> {
    let alloc = rt.alloc();
    let mut core = Core::new(alloc, Pairs::new(alloc))?;
    let mut settler = Settler::new(alloc);
    add(alloc, &mut core, "rate = fetch(\"rate\")")?;
    add(alloc, &mut core, "price = 12 * rate")?;
    settler.settle(&mut core)?;
    assert_eq!(rt; price(&core), None);
    if let Some(ticket) = asks_for_rate(&core) {
        answer(&mut core, ticket, 109)?;
    }
    settler.settle(&mut core)?;
    assert_eq!(rt; price(&core), Some(1308));
    assert!(rt; asks_for_rate(&core).is_none());
    Ok(())
}
