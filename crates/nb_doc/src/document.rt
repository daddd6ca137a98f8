use nb_log::Event;
use nb_value::{Argv, Items, Pairs, Text, Value};

/// A program, by its words, for the fetches of a key.
#[derive(Debug, Drop)]
pub struct Loader {
    pub key: Text,
    /// The words that start it, its name first. There is one at least.
    pub argv: Argv,
}

/// The loaders of a document, in their order. No two have one key.
pub type Loaders = Items<Loader>;

/// A notebook, as its file has it.
#[derive(Debug, Drop)]
pub struct Document {
    /// Names that stand for values in every module.
    pub builtins: Pairs<Value>,
    /// The lines of editor 0 that the document stands for, in their order.
    pub lines: Items<Event>,
    pub loaders: Loaders,
}
