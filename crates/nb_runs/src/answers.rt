ghost use Rattle.std.specs.Prelude.{◌≡◌, [], ◌∷◌, ◌++◌, IfErr, OnOk, OnErr};

use nb_value::Answer;
use std::alloc::{AllocFailed, Global};
use std::marker::Model;

/// The answers to the fetches of a start, in their order. Contracts see them as the list of them.
#[derive(Drop)]
pub struct Answers {
    items: Vec<Answer>,
}

impl Model for Answers {
    ghost use Rattle.std.specs.Prelude.{List};
    ghost use Rattle.std.specs.Coded.{coded_list};
    ghost use Rattle.nb_value.specs.declared.outcome.Answer.{Answer};
    ghost use Rattle.nb_value.specs.contracts.outcome.Answer as answer;

    ghost Value = { List Answer };

    ghost coded = { coded_list answer.the_row.coded };

    ghost view = { λ a. a.items.items };
}

impl Answers {
    /// None yet. It takes no memory.
    pub fn new(alloc: Global) -> Answers
        ensures { result ≡ [] }
    {
        Answers {
            items: Vec::new(alloc),
        }
    }

    /// Them, in their order.
    pub fn as_slice(&self) -> &[Answer]
        ensures { result.now ≡ self.now }
    {
        self.items.as_slice()
    }

    /// Adds one at the end, in constant time on average. It fails only without memory; then nothing has changed, and the
    /// answer comes back.
    pub fn push(&mut self, answer: Answer) -> Result<(), AllocFailed<Answer>>
        ensures ok { OnOk result (self.new ≡ self.old ++ answer ∷ []) }
        ensures err { OnErr result (self.new ≡ self.old) }
        ensures back { IfErr result (λ e. e.value ≡ answer) }
    {
        self.items.push(answer)
    }
}
