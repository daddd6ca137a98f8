/// What a thread over a book has come to.
#[derive(Clone, Copy, Debug, PartialEq, Eq)]
pub enum Moment {
    /// The editor's thread is about to try its first line. `editor` is below 8.
    Next { editor: u8 },
    /// The editor's line was done; its entry stands at this place of the log, counted from 0.
    Advanced { editor: u8, place: u64 },
    /// A worker took the variable's work. The variables are counted from 1; `start` is the place of its `pending` entry.
    Took { var: u32, start: u64 },
    /// The work was done, and its result isn't placed yet.
    Ran { var: u32, start: u64 },
    /// The result was placed in the log.
    Placed { var: u32 },
}

/// What threads over a book tell their moments. A program's does nothing; a test's may hold a thread.
pub trait Gate {
    /// Is told a moment, and may let the thread wait. `who` is the editor's number on an editor's thread, and 8 + k on the
    /// thread of worker k, counted from 0.
    fn at(&self, who: u32, moment: Moment);
}

/// A gate that holds nobody.
#[derive(Clone, Copy, Debug)]
pub struct FreeGate;

impl Gate for FreeGate {
    fn at(&self, _who: u32, _moment: Moment) {}
}
