//! The functions that cells may call.

ghost use Rattle.std.specs.Prelude.{◌≡◌};
ghost use Rattle.nb_value.specs.Function.{function_name, arity};

/// The functions that cells may call.
#[derive(Clone, Copy, Debug, PartialEq, Eq)]
pub enum Function {
    /// The number of characters, items or fields.
    Len,
    /// The sum of a list of numbers.
    Sum,
    /// The least of a list.
    Min,
    /// The greatest of a list.
    Max,
    /// The amount of a number.
    Abs,
    /// The numbers from one up to below another.
    Range,
    /// A part of a text or of a list.
    Slice,
    /// A text or a list, backwards.
    Reverse,
    /// A list, sorted.
    Sort,
    /// The names of a record.
    Keys,
    /// The values of a record.
    Values,
    /// Whether a record has a field.
    Has,
    /// A value as text.
    Text,
    /// The number that a text spells.
    Int,
    /// The parts of a text.
    Split,
    /// Texts, put together.
    Join,
}

impl Function {
    /// The name that cells call it by.
    pub fn name(self) -> &'static str
        ensures { result.now ≡ function_name self }
    {
        match self {
            Function::Len => "len",
            Function::Sum => "sum",
            Function::Min => "min",
            Function::Max => "max",
            Function::Abs => "abs",
            Function::Range => "range",
            Function::Slice => "slice",
            Function::Reverse => "reverse",
            Function::Sort => "sort",
            Function::Keys => "keys",
            Function::Values => "values",
            Function::Has => "has",
            Function::Text => "text",
            Function::Int => "int",
            Function::Split => "split",
            Function::Join => "join",
        }
    }

    /// The number of its arguments, from 1 to 3.
    pub fn arity(self) -> usize
        ensures { result ≡ arity self }
    {
        match self {
            Function::Slice => 3,
            Function::Range | Function::Has | Function::Split | Function::Join => 2,
            _ => 1,
        }
    }
}
