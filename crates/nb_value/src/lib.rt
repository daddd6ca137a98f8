//! The values of a notebook, and the small types that contracts see as lists.
#![tactic(auto)]

mod argv;
mod boxed;
mod bytes;
mod function;
mod items;
mod law;
mod numbers;
mod order;
mod outcome;
mod pairs;
mod print;
mod read;
mod text;
mod tree;
mod value;
mod words;

pub use argv::Argv;
pub use boxed::Boxed;
pub use bytes::Bytes;
pub use function::Function;
pub use items::Items;
pub use law::law_of_equal_order;
pub use numbers::Numbers;
pub use outcome::{Answer, CellError, ErrorKind, Outcome};
pub use pairs::{Field, Pairs};
pub use read::{JsonFail, MAX_DEPTH, MAX_SIZE};
pub use text::Text;
pub use tree::Tree;
pub use value::Value;
pub use words::Words;
