use crate::text::Text;
use crate::tree::Tree;
use crate::value::Value;
use std::alloc::{AllocError, Global};

/// What answers a fetch.
#[derive(Debug, Drop)]
pub enum Answer {
    /// The value that was fetched.
    Value(Value),
    /// Nothing was fetched, for the reason that the text tells.
    Failure(Text),
}

/// The kinds of errors, with the numbers that stand for them. Each has its own use for the `detail` of a `CellError`.
#[derive(Clone, Copy, Debug, PartialEq, Eq)]
pub enum ErrorKind {
    /// A name has no definition. The detail is the name.
    NotDefined = 1,
    /// A name has more than one definition. The detail is the name.
    DefinedTwice = 2,
    /// A definition needs itself. The detail is the name.
    Circular = 3,
    /// A value is not of the kind that is needed. The detail is the sign, the word or the function.
    WrongKind = 4,
    /// A whole number does not fit 64 bits. The detail is the sign or the function.
    Overflow = 5,
    /// A division by zero. The detail is the sign.
    ZeroDivisor = 6,
    /// A number or a text is outside of what is allowed, as an index past a list. The detail is the sign or the function.
    OutOfRange = 7,
    /// A record has no such field. The detail is its name.
    NoField = 8,
    /// The cell threw it. The detail is the text that was thrown, or the JSON of another value.
    Thrown = 9,
    /// A fetch was answered by a failure. The detail is its text.
    FetchFailed = 10,
    /// More fuel was needed than was left. The detail is empty.
    OutOfFuel = 11,
    /// A value is larger than allowed. The detail says which: a function, or `value`.
    TooLarge = 12,
    /// An evaluation fetched more often than allowed. The detail is `fetch`.
    TooManyFetches = 13,
    /// An assignment to a name that is no local. The detail is the name.
    Unassigned = 14,
}

/// Why a variable has no value.
#[derive(Debug, Drop)]
pub struct CellError {
    /// What went wrong.
    pub kind: ErrorKind,
    /// At most 200 characters: a name, a sign, or a text of the cell.
    pub detail: Text,
    /// The name of the input that the error came through, if it came through one.
    pub via: Option<Text>,
}

/// What a variable shows.
#[derive(Debug, Drop)]
pub enum Outcome {
    /// The value of the variable.
    Value(Value),
    /// It has no value, for this reason.
    Error(CellError),
}

impl Tree for Answer {
    fn copy(&self, alloc: Global) -> Result<Answer, AllocError> {
        match self {
            Answer::Value(value) => Ok(Answer::Value(value.copy(alloc)?)),
            Answer::Failure(text) => Ok(Answer::Failure(text.copy(alloc)?)),
        }
    }

    fn same(&self, other: &Answer) -> bool {
        match (self, other) {
            (Answer::Value(a), Answer::Value(b)) => a.same(b),
            (Answer::Failure(a), Answer::Failure(b)) => a.same(b),
            _ => false,
        }
    }
}

impl Tree for CellError {
    fn copy(&self, alloc: Global) -> Result<CellError, AllocError> {
        Ok(CellError {
            kind: self.kind,
            detail: self.detail.copy(alloc)?,
            via: self.via.copy(alloc)?,
        })
    }

    fn same(&self, other: &CellError) -> bool {
        self.kind == other.kind && self.detail.same(&other.detail) && self.via.same(&other.via)
    }
}

impl Tree for Outcome {
    fn copy(&self, alloc: Global) -> Result<Outcome, AllocError> {
        match self {
            Outcome::Value(value) => Ok(Outcome::Value(value.copy(alloc)?)),
            Outcome::Error(error) => Ok(Outcome::Error(error.copy(alloc)?)),
        }
    }

    fn same(&self, other: &Outcome) -> bool {
        match (self, other) {
            (Outcome::Value(a), Outcome::Value(b)) => a.same(b),
            (Outcome::Error(a), Outcome::Error(b)) => a.same(b),
            _ => false,
        }
    }
}
