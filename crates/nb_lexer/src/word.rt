use nb_value::Text;

/// A token without its place: the words that the grammar of cells speaks of.
#[derive(Debug, Drop)]
pub enum Word {
    Name(Text),
    /// From 0 to 9223372036854775807.
    Number(i64),
    /// The text without its quotes and escapes.
    Quoted(Text),
    /// `let`
    Let,
    /// `if`
    If,
    /// `else`
    Else,
    /// `while`
    While,
    /// `for`
    For,
    /// `of`
    Of,
    /// `yield`
    Yield,
    /// `return`
    Return,
    /// `throw`
    Throw,
    /// `cleanup`
    Cleanup,
    /// `fetch`
    Fetch,
    /// `true`
    True,
    /// `false`
    False,
    /// `null`
    Null,
    /// `+`
    Plus,
    /// `-`
    Minus,
    /// `*`
    Times,
    /// `/`
    Divide,
    /// `%`
    Remainder,
    /// `(`
    OpenRound,
    /// `)`
    CloseRound,
    /// `[`
    OpenSquare,
    /// `]`
    CloseSquare,
    /// `{`
    OpenCurly,
    /// `}`
    CloseCurly,
    /// `,`
    Comma,
    /// `:`
    Colon,
    /// `;`
    Semicolon,
    /// `.`
    Dot,
    /// `=`
    Assign,
    /// `==`
    Equal,
    /// `!=`
    NotEqual,
    /// `<`
    Less,
    /// `<=`
    LessOrEqual,
    /// `>`
    Greater,
    /// `>=`
    GreaterOrEqual,
    /// `&&`
    And,
    /// `||`
    Or,
    /// `!`
    Not,
    /// `?`
    Question,
}
