//! The lines and the sizes of a few entries, and each call of the log.
use nb_log::{
    Entry, Event, Log, Refusal, Target, entry_size, push_done_line, push_entries, push_table_line,
};
use nb_sheet::{Edit, Specifier};
use nb_value::{Answer, Bytes, CellError, ErrorKind, Items, Outcome, Text, Tree, Value};
use std::alloc::{AllocError, Global};
use std::mem::drop;
use std::test::Fail;

const TEXT: &str =
    "[\"frame\",1]\n[\"pending\",1,[]]\n[\"fulfilled\",1,3]\n[\"rejected\",1,\"NotDefined\",\"x\",null]\n[\"refused\",0,22,\"NoTicket\",{\"do\":\"settle\",\"ticket\":18446744073709551615,\"value\":null}]\n[\"edit\",2,{\"do\":\"derive\",\"module\":0,\"source\":1,\"with\":[{\"alias\":\"b\",\"name\":\"a\"},{\"alias\":\"c\",\"name\":\"c\"}]}]\n[\"value\",1,\"x\",\"fulfilled\",3]\n[\"done\",6]\n";

// A settlement of a ticket that no value holds.
fn settlement() -> Event {
    Event::Settle {
        target: Target::Ticket(18_446_744_073_709_551_615),
        answer: Answer::Value(Value::Null),
    }
}

fn specifier(alloc: Global, name: &str, alias: &str) -> Result<Specifier, AllocError> {
    let name = Text::from_str(alloc, name)?;
    let alias = Text::from_str(alloc, alias)?;
    Ok(Specifier { name, alias })
}

// A derive of module 0 with a of module 1 as b, and c.
fn derive(alloc: Global) -> Result<Edit, AllocError> {
    let mut specifiers = Items::new(alloc);
    specifiers.push(specifier(alloc, "a", "b")?)?;
    specifiers.push(specifier(alloc, "c", "c")?)?;
    Ok(Edit::Derive {
        module: 0,
        with: specifiers,
        source: 1,
    })
}

fn entries(alloc: Global) -> Result<Vec<Entry>, AllocError> {
    let edit = derive(alloc)?;
    let error = CellError {
        kind: ErrorKind::NotDefined,
        detail: Text::from_str(alloc, "x")?,
        via: None,
    };
    Ok(Vec::from_array(
        alloc,
        [
            Entry::Pending {
                var: 1,
                disposed: Items::new(alloc),
            },
            Entry::Fulfilled {
                var: 1,
                value: Value::Int(3),
            },
            Entry::Rejected { var: 1, error },
            Entry::Refused {
                editor: 0,
                reason: Refusal::NoTicket,
                event: settlement(),
            },
            Entry::Edit { editor: 2, edit },
        ],
    )?)
}

// The log of a frame and these entries.
fn log_of(alloc: Global, entries: Vec<Entry>) -> Result<Log, AllocError> {
    let mut log = Log::new(alloc);
    log.reserve(entries.len() + 1)?;
    log.push(Entry::Frame { editor: 1 });
    log.append(entries);
    Ok(log)
}

// The lines of the log, a line of the table and the last one.
fn printed(alloc: Global, log: &Log) -> Result<Bytes, AllocError> {
    let mut out = Bytes::new(alloc);
    push_entries(alloc, &mut out, log.as_slice())?;
    let name = Text::from_str(alloc, "x")?;
    let shown = Outcome::Value(Value::Int(3));
    push_table_line(alloc, &mut out, 1, Some(&name), Some(&shown))?;
    push_done_line(alloc, &mut out, log.len())?;
    Ok(out)
}

// The size of the entry at a place, or 0.
fn size_at(log: &Log, place: u64) -> u64 {
    match log.get(place) {
        Some(entry) => entry_size(entry),
        None => 0,
    }
}

#[test]
fn keeps_and_prints(rt: HostRuntime) -> Result<(), Fail> {
    let alloc = rt.alloc();
    let log = log_of(alloc, entries(alloc)?)?;
    let text = printed(alloc, &log);
    let sizes = [
        size_at(&log, 0),
        size_at(&log, 1),
        size_at(&log, 2),
        size_at(&log, 3),
        size_at(&log, 4),
        size_at(&log, 5),
        size_at(&log, 6),
        log.size(),
    ];
    drop(log);
    assert_eq!(rt; sizes, [0, 8, 11, 13, 25, 46, 72, 175]);
    assert!(rt; text?.as_slice() == TEXT.as_bytes());
    Ok(())
}

fn is_copied(alloc: Global, event: &Event) -> Result<bool, AllocError> {
    let copy = event.copy(alloc)?;
    Ok(copy.same(event))
}

// Whether a copy of the event is the same, and the event is let go of.
fn copies(alloc: Global, event: Event) -> Result<bool, AllocError> {
    let copied = is_copied(alloc, &event);
    drop(event);
    copied
}

#[test]
fn copies_events(rt: HostRuntime) -> Result<(), Fail> {
    assert!(rt; copies(rt.alloc(), settlement())?);
    assert!(rt; copies(rt.alloc(), Event::Edit(derive(rt.alloc())?))?);
    Ok(())
}
