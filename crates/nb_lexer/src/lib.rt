//! The tokens of a cell's text.
#![tactic(auto)]

mod characters;
mod fault;
mod fixed;
mod laws;
mod lexer;
mod name;
mod number;
mod quoted;
mod token;
mod word;
mod word_list;

pub use fault::LexError;
pub use laws::{law_of_tokens, law_of_written_words};
pub use lexer::tokens;
pub use name::is_name;
pub use token::{Token, TokenKind, Tokens};
pub use word::Word;
pub use word_list::words;
