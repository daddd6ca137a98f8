use crate::event::Event;
use nb_sheet::Edit;
use nb_value::{Answer, CellError, Items, Text, Value};

/// Why an event is refused. The first six are reasons against an edit.
#[derive(Clone, Copy, Debug, PartialEq, Eq)]
pub enum Refusal {
    NoModule = 1,
    NoVariable = 2,
    TooManyModules = 3,
    TooManyVariables = 4,
    NotNamed = 5,
    NamedTwice = 6,
    Disposed = 20,
    LogFull = 21,
    NoTicket = 22,
    AlreadySettled = 23,
    NoAsk = 24,
}

/// An entry of the log. Its place is its position, counted from 1.
#[derive(Debug, Drop)]
pub enum Entry {
    Edit {
        editor: u8,
        edit: Edit,
    },
    Frame {
        editor: u8,
    },
    Settled {
        editor: u8,
        ticket: u64,
        answer: Answer,
    },
    /// A settlement of a ticket that isn't live any more.
    Late {
        editor: u8,
        ticket: u64,
    },
    /// The answer of a data loader.
    Loaded {
        ticket: u64,
        answer: Answer,
    },
    Refused {
        editor: u8,
        reason: Refusal,
        event: Event,
    },
    Rest {
        editor: u8,
    },
    Dispose {
        editor: u8,
    },
    /// A variable starts. `disposed` has the cleanups that its last start owed.
    Pending {
        var: u32,
        disposed: Items<Value>,
    },
    Fulfilled {
        var: u32,
        value: Value,
    },
    Rejected {
        var: u32,
        error: CellError,
    },
    /// A variable waits for the answer to a fetch.
    Asked {
        var: u32,
        ticket: u64,
        key: Text,
    },
    /// A generator has no further value.
    Ended {
        var: u32,
    },
    /// A variable isn't wanted any more.
    Left {
        var: u32,
        disposed: Items<Value>,
    },
}
