//! The operators at the head of words.

ghost use Rattle.std.specs.Prelude.{◌≡◌, ◌<◌, length, IfSome};
ghost use Rattle.std.specs.Option.{option_map};
ghost use Rattle.nb_grammar.specs.Words.{product_sign, sum_sign, compare_sign};
ghost use Rattle.nb_parser.specs.Heads.{sign_at};

use nb_lexer::Word;
use nb_syntax::Sign;

/// The operator of a product at the head, and the words behind it.
pub fn product_sign(words: &[Word]) -> Option<(Sign, &[Word])>
    ensures value { option_map (λ x. (x.0, x.1.now)) result ≡ sign_at product_sign words.now }
    ensures shorter { IfSome result (λ x. length x.1.now < length words.now) }
{
    match words {
        [Word::Times, rest @ ..] => Some((Sign::Times, rest)),
        [Word::Divide, rest @ ..] => Some((Sign::Divide, rest)),
        [Word::Remainder, rest @ ..] => Some((Sign::Remainder, rest)),
        _ => None,
    }
}

/// The operator of a sum at the head, and the words behind it.
pub fn sum_sign(words: &[Word]) -> Option<(Sign, &[Word])>
    ensures value { option_map (λ x. (x.0, x.1.now)) result ≡ sign_at sum_sign words.now }
    ensures shorter { IfSome result (λ x. length x.1.now < length words.now) }
{
    match words {
        [Word::Plus, rest @ ..] => Some((Sign::Plus, rest)),
        [Word::Minus, rest @ ..] => Some((Sign::Minus, rest)),
        _ => None,
    }
}

/// The operator of a comparison at the head, and the words behind it.
pub fn compare_sign(words: &[Word]) -> Option<(Sign, &[Word])>
    ensures value { option_map (λ x. (x.0, x.1.now)) result ≡ sign_at compare_sign words.now }
    ensures shorter { IfSome result (λ x. length x.1.now < length words.now) }
{
    match words {
        [Word::Equal, rest @ ..] => Some((Sign::Equal, rest)),
        [Word::NotEqual, rest @ ..] => Some((Sign::NotEqual, rest)),
        [Word::Less, rest @ ..] => Some((Sign::Less, rest)),
        [Word::LessOrEqual, rest @ ..] => Some((Sign::LessOrEqual, rest)),
        [Word::Greater, rest @ ..] => Some((Sign::Greater, rest)),
        [Word::GreaterOrEqual, rest @ ..] => Some((Sign::GreaterOrEqual, rest)),
        _ => None,
    }
}
