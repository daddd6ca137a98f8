//! The functions by their names.

ghost use Rattle.std.specs.Prelude.{◌≡◌};
ghost use Rattle.nb_grammar.specs.Words.{called};

use nb_value::{Function, Text};

const FUNCTIONS: [Function; 16] = [
    Function::Len,
    Function::Sum,
    Function::Min,
    Function::Max,
    Function::Abs,
    Function::Range,
    Function::Slice,
    Function::Reverse,
    Function::Sort,
    Function::Keys,
    Function::Values,
    Function::Has,
    Function::Text,
    Function::Int,
    Function::Split,
    Function::Join,
];

/// The function of this name.
#[tactic(auto, unfolding(nb_grammar::specs::Words::called))]
pub fn function_of(name: &Text) -> Option<Function>
    ensures { result ≡ called name.now }
{
    FUNCTIONS
        .iter()
        .copied()
        .find(|function| function.name() == name.as_str())
}
