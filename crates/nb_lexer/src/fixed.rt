ghost use Rattle.std.specs.Prelude.{◌≡◌, option_map, length};
ghost use Rattle.nb_lexer.specs.Words.{keyword, sign, fixed_text};

use crate::word::Word;

/// The keyword that the bytes spell, if they spell one.
#[tactic(auto, unfolding(crate::specs::Words::keyword))]
pub fn keyword(bytes: &[u8]) -> Option<Word>
    ensures { result ≡ keyword bytes.now }
{
    if bytes == b"let".as_slice() {
        Some(Word::Let)
    } else if bytes == b"if".as_slice() {
        Some(Word::If)
    } else if bytes == b"else".as_slice() {
        Some(Word::Else)
    } else if bytes == b"while".as_slice() {
        Some(Word::While)
    } else if bytes == b"for".as_slice() {
        Some(Word::For)
    } else if bytes == b"of".as_slice() {
        Some(Word::Of)
    } else if bytes == b"yield".as_slice() {
        Some(Word::Yield)
    } else if bytes == b"return".as_slice() {
        Some(Word::Return)
    } else if bytes == b"throw".as_slice() {
        Some(Word::Throw)
    } else if bytes == b"cleanup".as_slice() {
        Some(Word::Cleanup)
    } else if bytes == b"fetch".as_slice() {
        Some(Word::Fetch)
    } else if bytes == b"true".as_slice() {
        Some(Word::True)
    } else if bytes == b"false".as_slice() {
        Some(Word::False)
    } else if bytes == b"null".as_slice() {
        Some(Word::Null)
    } else {
        None
    }
}

/// The longest sign at the front of the bytes, and how many bytes it takes; if there is one.
#[tactic(auto, unfolding(crate::specs::Words::sign))]
pub fn sign(bytes: &[u8]) -> Option<(Word, usize)>
    ensures { result ≡ option_map (λ w. (w, length (fixed_text w))) (sign bytes.now) }
{
    match bytes {
        [b'=', b'=', ..] => Some((Word::Equal, 2)),
        [b'!', b'=', ..] => Some((Word::NotEqual, 2)),
        [b'<', b'=', ..] => Some((Word::LessOrEqual, 2)),
        [b'>', b'=', ..] => Some((Word::GreaterOrEqual, 2)),
        [b'&', b'&', ..] => Some((Word::And, 2)),
        [b'|', b'|', ..] => Some((Word::Or, 2)),
        [b'+', ..] => Some((Word::Plus, 1)),
        [b'-', ..] => Some((Word::Minus, 1)),
        [b'*', ..] => Some((Word::Times, 1)),
        [b'/', ..] => Some((Word::Divide, 1)),
        [b'%', ..] => Some((Word::Remainder, 1)),
        [b'(', ..] => Some((Word::OpenRound, 1)),
        [b')', ..] => Some((Word::CloseRound, 1)),
        [b'[', ..] => Some((Word::OpenSquare, 1)),
        [b']', ..] => Some((Word::CloseSquare, 1)),
        [b'{', ..] => Some((Word::OpenCurly, 1)),
        [b'}', ..] => Some((Word::CloseCurly, 1)),
        [b',', ..] => Some((Word::Comma, 1)),
        [b':', ..] => Some((Word::Colon, 1)),
        [b';', ..] => Some((Word::Semicolon, 1)),
        [b'.', ..] => Some((Word::Dot, 1)),
        [b'=', ..] => Some((Word::Assign, 1)),
        [b'<', ..] => Some((Word::Less, 1)),
        [b'>', ..] => Some((Word::Greater, 1)),
        [b'!', ..] => Some((Word::Not, 1)),
        [b'?', ..] => Some((Word::Question, 1)),
        _ => None,
    }
}
