//! Copies of events, and whether two are one.

use crate::event::{Event, Target};
use nb_value::Tree;
use std::alloc::{AllocError, Global};

impl Tree for Target {
    fn copy(&self, alloc: Global) -> Result<Target, AllocError> {
        match self {
            Target::Ticket(ticket) => Ok(Target::Ticket(*ticket)),
            Target::Key(key) => Ok(Target::Key(key.copy(alloc)?)),
        }
    }

    fn same(&self, other: &Target) -> bool {
        match (self, other) {
            (Target::Ticket(a), Target::Ticket(b)) => *a == *b,
            (Target::Key(a), Target::Key(b)) => a.same(b),
            _ => false,
        }
    }
}

impl Tree for Event {
    fn copy(&self, alloc: Global) -> Result<Event, AllocError> {
        match self {
            Event::Edit(edit) => Ok(Event::Edit(edit.copy(alloc)?)),
            Event::Frame => Ok(Event::Frame),
            Event::Settle { target, answer } => Ok(Event::Settle {
                target: target.copy(alloc)?,
                answer: answer.copy(alloc)?,
            }),
            Event::Rest => Ok(Event::Rest),
            Event::Dispose => Ok(Event::Dispose),
        }
    }

    fn same(&self, other: &Event) -> bool {
        match (self, other) {
            (Event::Edit(a), Event::Edit(b)) => a.same(b),
            (Event::Frame, Event::Frame) => true,
            (
                Event::Settle {
                    target: s,
                    answer: a,
                },
                Event::Settle {
                    target: t,
                    answer: b,
                },
            ) => { s.same(t) && a.same(b) }
            (Event::Rest, Event::Rest) => true,
            (Event::Dispose, Event::Dispose) => true,
            _ => false,
        }
    }
}
