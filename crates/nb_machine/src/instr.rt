ghost use Rattle.std.specs.Prelude.{◌≡◌};
ghost use Rattle.nb_machine.specs.Machine.{text_of};

use crate::turns::Turns;
use nb_eval::members::Members;
use nb_syntax::Sign;
use nb_value::{Function, Items, Text, Value};

/// What a test belongs to.
#[derive(Clone, Copy, Debug, PartialEq, Eq)]
pub enum Word {
    /// `&&`
    And,
    /// `||`
    Or,
    /// `?`
    Choice,
    /// `if`
    If,
    /// `while`
    While,
}

impl Word {
    /// The word as an error says it.
    pub fn text(self) -> &'static str
        ensures { result.now ≡ text_of self }
    {
        match self {
            Word::And => "&&",
            Word::Or => "||",
            Word::Choice => "?",
            Word::If => "if",
            Word::While => "while",
        }
    }
}

/// An instruction of a cell's code. A jump says how many instructions it passes.
#[derive(Drop)]
pub enum Instr {
    /// A value of the text.
    Const(Value),
    /// The value of a name.
    Name(Text),
    /// The charge of the value on top.
    Charge,
    /// No values yet, of a list or of a call.
    Values,
    /// The value on top goes to the values below it.
    Append,
    /// The list of the values on top.
    List,
    /// What a function gives for the values on top.
    Call(Function),
    /// No fields yet.
    Fields,
    /// The value on top goes to the fields below it, under this key.
    Put(Text),
    /// The record of the fields on top.
    Record,
    /// The field of the value on top.
    Field(Text),
    /// The part of the value below the top at the index on top.
    At,
    Unary(Sign),
    Product(Sign),
    Sum(Sign),
    Compare(Sign),
    /// The answer to the key on top.
    Fetch,
    /// A jump where the value on top is false.
    Unless(Word, usize),
    /// A jump where the value on top is true.
    When(Word, usize),
    /// A jump.
    Go(usize),
    /// A jump back.
    Back(usize),
    /// The charge of a statement.
    Tick,
    Let(Text),
    Assign(Text),
    /// A mark of the locals that hold.
    Enter,
    /// Ends the locals after the mark on top.
    Leave,
    /// The value on top as the turns of a `for`.
    Turns,
    /// A jump where no turns are left.
    Next(usize),
    /// The value of the next turn, as a local after a mark.
    Take(Text),
    Yield,
    Return,
    Throw,
    Cleanup,
}

/// What stands on a machine's stack.
#[derive(Drop)]
pub enum Slot {
    Value(Value),
    /// A value for which the fuel isn't enough, in front of its charge.
    Unpaid,
    /// The values so far of a list or of a call.
    Values(Items<Value>),
    /// The fields so far of a record.
    Fields(Members),
    /// What is left of the values of a `for`.
    Turns(Turns),
    /// How many locals there were.
    Mark(usize),
}
