//! The tokens of texts, or their first faults, and the words that the tokens are.
use nb_lexer::{
    Token, TokenKind, Word, is_name, law_of_tokens, law_of_written_words, tokens, words,
};
use std::alloc::Global;
use std::test::Fail;

// Texts, with their tokens as `listing` shows them.
fn texts() -> [(&'static str, &'static str); 16] {
    [
        ("", ""),
        (" \t\r\n", ""),
        ("x=1", "name 0 1;sign 1 2;number 1 2 3;"),
        ("\t_a$9 \n", "name 1 5;"),
        ("lets let", "name 0 4;keyword 5 8;"),
        ("0", "number 0 0 1;"),
        ("10 05", "BadCharacter(4)"),
        ("9223372036854775807", "number 9223372036854775807 0 19;"),
        ("<==", "sign 0 2;sign 2 3;"),
        ("!==>=<", "sign 0 2;sign 2 3;sign 3 5;sign 5 6;"),
        ("&&||", "sign 0 2;sign 2 4;"),
        (
            "+-*/%()[]",
            "sign 0 1;sign 1 2;sign 2 3;sign 3 4;sign 4 5;sign 5 6;sign 6 7;sign 7 8;sign 8 9;",
        ),
        (
            "{},:;.?",
            "sign 0 1;sign 1 2;sign 2 3;sign 3 4;sign 4 5;sign 5 6;sign 6 7;",
        ),
        ("\"\"a\"b\"", "quoted  0 2;name 2 3;quoted b 3 6;"),
        ("\"\u{e9}\" x", "quoted \u{e9} 0 4;name 5 6;"),
        ("\"\\\"\\\\\\n\\r\\t\"", "quoted \"\\\n\r\t 0 12;"),
    ]
}

// Texts, with their first faults.
fn faults() -> [(&'static str, &'static str); 21] {
    [
        ("x = #", "BadCharacter(4)"),
        ("x = \"a", "OpenText(4)"),
        ("x = \"\\q\"", "BadEscape(5)"),
        ("007", "BadCharacter(1)"),
        ("9223372036854775808", "TooWide(0)"),
        ("99999999999999999999x", "TooWide(0)"),
        ("1a", "BadCharacter(1)"),
        ("12_", "BadCharacter(2)"),
        ("0$", "BadCharacter(1)"),
        ("x & y", "BadCharacter(2)"),
        ("|", "BadCharacter(0)"),
        ("&&&", "BadCharacter(2)"),
        ("\"a\u{1}", "BadCharacter(2)"),
        ("\"a\n\"", "BadCharacter(2)"),
        ("\"a\tb\"", "BadCharacter(2)"),
        ("\"a\\", "OpenText(0)"),
        ("\"", "OpenText(0)"),
        ("\"\\\u{e9}", "BadEscape(1)"),
        ("\"\\u0041\"", "BadEscape(1)"),
        ("x = \u{e9}", "BadCharacter(4)"),
        ("# 99999999999999999999", "BadCharacter(0)"),
    ]
}

fn keywords() -> [&'static str; 14] {
    [
        "let", "if", "else", "while", "for", "of", "yield", "return", "throw", "cleanup", "fetch",
        "true", "false", "null",
    ]
}

fn shown(alloc: Global, token: &Token) -> Result<String, Fail> {
    let (start, end) = (token.start, token.end);
    let line = match &token.kind {
        TokenKind::Name => format!(in alloc; "name {start} {end};")?,
        TokenKind::Keyword => format!(in alloc; "keyword {start} {end};")?,
        TokenKind::Number(number) => format!(in alloc; "number {number} {start} {end};")?,
        TokenKind::Quoted(text) => {
            let text = text.as_str();
            format!(in alloc; "quoted {text} {start} {end};")?
        }
        TokenKind::Sign => format!(in alloc; "sign {start} {end};")?,
    };
    Ok(line)
}

fn listing(alloc: Global, text: &str) -> Result<String, Fail> {
    let found = match tokens(alloc, text) {
        Ok(found) => found,
        Err(error) => return Ok(format!(in alloc; "{error:?}")?),
    };
    let mut all = String::new(alloc);
    for token in found.as_slice() {
        let line = shown(alloc, token)?;
        all.push_str(line.as_str())?;
    }
    Ok(all)
}

#[test]
fn finds_tokens_or_the_first_fault(rt: HostRuntime) -> Result<(), Fail> {
    let alloc = rt.alloc();
    for (text, all) in texts() {
        assert_eq!(rt; listing(alloc, text)?.as_str(), all);
    }
    for (text, fault) in faults() {
        assert_eq!(rt; listing(alloc, text)?.as_str(), fault);
    }
    Ok(())
}

#[test]
fn tells_keywords_from_names(rt: HostRuntime) -> Result<(), Fail> {
    let alloc = rt.alloc();
    for keyword in keywords() {
        let end = keyword.len();
        let all = format!(in alloc; "keyword 0 {end};")?;
        assert_eq!(rt; listing(alloc, keyword)?.as_str(), all.as_str());
        assert!(rt; !is_name(keyword));
    }
    assert!(rt; is_name("$lets_9"));
    assert!(rt; !is_name("") && !is_name("9a") && !is_name("a b") && !is_name("\u{e9}"));
    Ok(())
}

#[test]
fn gives_the_words(rt: HostRuntime) -> Result<(), Fail> {
    let alloc = rt.alloc();
    let text = "of x7<=\"\\\\\" 12";
    let Ok(found) = tokens(alloc, text) else {
        return Err("refused".into());
    };
    let spoken = words(alloc, text, &found)?;
    let [
        Word::Of,
        Word::Name(name),
        Word::LessOrEqual,
        Word::Quoted(value),
        Word::Number(12),
    ] = spoken.as_slice()
    else {
        return Err("other words".into());
    };
    assert_eq!(rt; name.as_str(), "x7");
    assert_eq!(rt; value.as_str(), "\\");
    Ok(())
}

fn signs() -> [&'static str; 26] {
    [
        "+", "-", "*", "/", "%", "(", ")", "[", "]", "{", "}", ",", ":", ";", ".", "=", "==", "!=",
        "<", "<=", ">", ">=", "&&", "||", "!", "?",
    ]
}

fn keyword_text(word: &Word) -> &'static str {
    match word {
        Word::Let => "let",
        Word::If => "if",
        Word::Else => "else",
        Word::While => "while",
        Word::For => "for",
        Word::Of => "of",
        Word::Yield => "yield",
        Word::Return => "return",
        Word::Throw => "throw",
        Word::Cleanup => "cleanup",
        Word::Fetch => "fetch",
        Word::True => "true",
        Word::False => "false",
        Word::Null => "null",
        _ => "",
    }
}

fn sign_text(word: &Word) -> &'static str {
    match word {
        Word::Plus => "+",
        Word::Minus => "-",
        Word::Times => "*",
        Word::Divide => "/",
        Word::Remainder => "%",
        Word::OpenRound => "(",
        Word::CloseRound => ")",
        Word::OpenSquare => "[",
        Word::CloseSquare => "]",
        Word::OpenCurly => "{",
        Word::CloseCurly => "}",
        Word::Comma => ",",
        Word::Colon => ":",
        Word::Semicolon => ";",
        Word::Dot => ".",
        Word::Assign => "=",
        Word::Equal => "==",
        Word::NotEqual => "!=",
        Word::Less => "<",
        Word::LessOrEqual => "<=",
        Word::Greater => ">",
        Word::GreaterOrEqual => ">=",
        Word::And => "&&",
        Word::Or => "||",
        Word::Not => "!",
        Word::Question => "?",
        _ => "",
    }
}

// The text of the keyword or the sign that a text's only word is.
fn only_word(alloc: Global, text: &str) -> Result<&'static str, Fail> {
    let Ok(found) = tokens(alloc, text) else {
        return Err("refused".into());
    };
    let spoken = words(alloc, text, &found)?;
    let [word] = spoken.as_slice() else {
        return Err("no single word".into());
    };
    let keyword = keyword_text(word);
    Ok(if keyword.is_empty() {
        sign_text(word)
    } else {
        keyword
    })
}

#[test]
fn tells_each_word(rt: HostRuntime) -> Result<(), Fail> {
    let alloc = rt.alloc();
    for text in keywords() {
        assert_eq!(rt; only_word(alloc, text)?, text);
    }
    for text in signs() {
        assert_eq!(rt; only_word(alloc, text)?, text);
    }
    Ok(())
}

#[test]
fn states_its_laws(rt: HostRuntime) {
    law_of_tokens();
    law_of_written_words();
}
