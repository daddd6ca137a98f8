use nb_value::{Items, Text};

/// What a token is, by itself.
#[derive(Debug, Drop)]
pub enum TokenKind {
    /// The name of a variable or a function.
    Name,
    /// One of the reserved words.
    Keyword,
    /// From 0 to 9223372036854775807.
    Number(i64),
    /// The text without its quotes and escapes.
    Quoted(Text),
    /// An operator, a bracket or a separator.
    Sign,
}

/// A token, and its place in the source: the bytes from `start` up to below `end`, counted from 0.
#[derive(Debug, Drop)]
pub struct Token {
    pub kind: TokenKind,
    pub start: usize,
    pub end: usize,
}

/// The tokens of a text, from left to right.
pub type Tokens = Items<Token>;
