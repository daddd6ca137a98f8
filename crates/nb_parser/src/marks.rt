//! Single words: what has to stand next, and how many brackets may open.

ghost use Rattle.std.specs.Prelude.{◌≡◌, ◌<◌, ◌≤◌, ◌+◌, suc, length, IfOk, IfSome, MatchResult, Some, None};
ghost use Rattle.std.specs.Option.{option_map};
ghost use Rattle.nb_grammar.specs.Reading.{Gives, close_round, close_square, close_curly, comma, colon, semicolon, assign, let_word, of_word, name, key, fault, inside_of, expr, stmts};
ghost use Rattle.nb_parser.specs.Heads.{after_or, after_and, after_comma};
ghost use Rattle.nb_grammar.specs.declared.fault.Stop.TheVariants as stops;
ghost use Rattle.nb_grammar.specs.declared.fault.Fault.TheVariants as faults;

use nb_grammar::{Fault, Stop};
use nb_lexer::Word;
use nb_value::Text;
use std::alloc::Global;

/// What it means that none of what may come next stands at the head of these words.
pub fn fault_at(words: &[Word]) -> Stop
    ensures { result ≡ stops.Fault (fault words.now) }
{
    match words {
        [] => Stop::Fault(Fault::Ended),
        [_, ..] => Stop::Fault(Fault::Unexpected(words.len())),
    }
}

/// The same, where a value has been read before these words, which is let go of here.
pub fn fault_behind<A: Drop>(_read: A, words: &[Word]) -> Stop
    ensures { result ≡ stops.Fault (fault words.now) }
{
    fault_at(words)
}

/// The words behind the `||` at the head, if it is one.
pub fn after_or(words: &[Word]) -> Option<&[Word]>
    ensures value { option_map (λ x. x.now) result ≡ after_or words.now }
    ensures shorter { IfSome result (λ x. length x.now < length words.now) }
{
    match words {
        [Word::Or, rest @ ..] => Some(rest),
        _ => None,
    }
}

/// The words behind the `&&` at the head, if it is one.
pub fn after_and(words: &[Word]) -> Option<&[Word]>
    ensures value { option_map (λ x. x.now) result ≡ after_and words.now }
    ensures shorter { IfSome result (λ x. length x.now < length words.now) }
{
    match words {
        [Word::And, rest @ ..] => Some(rest),
        _ => None,
    }
}

/// The words behind the `,` at the head, if it is one.
pub fn after_comma(words: &[Word]) -> Option<&[Word]>
    ensures value { option_map (λ x. x.now) result ≡ after_comma words.now }
    ensures shorter { IfSome result (λ x. length x.now < length words.now) }
{
    match words {
        [Word::Comma, rest @ ..] => Some(rest),
        _ => None,
    }
}

/// The words behind the `)` at the head.
pub fn close_round(words: &[Word]) -> Result<&[Word], Stop>
    ensures gives { Gives (λ x. x.now) result (close_round words.now) }
    ensures shorter { IfOk result (λ x. length x.now < length words.now) }
{
    match words {
        [Word::CloseRound, rest @ ..] => Ok(rest),
        _ => Err(fault_at(words)),
    }
}

/// The words behind the `]` at the head.
pub fn close_square(words: &[Word]) -> Result<&[Word], Stop>
    ensures gives { Gives (λ x. x.now) result (close_square words.now) }
    ensures shorter { IfOk result (λ x. length x.now < length words.now) }
{
    match words {
        [Word::CloseSquare, rest @ ..] => Ok(rest),
        _ => Err(fault_at(words)),
    }
}

/// The words behind the `}` at the head.
pub fn close_curly(words: &[Word]) -> Result<&[Word], Stop>
    ensures gives { Gives (λ x. x.now) result (close_curly words.now) }
    ensures shorter { IfOk result (λ x. length x.now < length words.now) }
{
    match words {
        [Word::CloseCurly, rest @ ..] => Ok(rest),
        _ => Err(fault_at(words)),
    }
}

/// The words behind the `,` at the head.
pub fn comma(words: &[Word]) -> Result<&[Word], Stop>
    ensures gives { Gives (λ x. x.now) result (comma words.now) }
    ensures shorter { IfOk result (λ x. length x.now < length words.now) }
{
    match words {
        [Word::Comma, rest @ ..] => Ok(rest),
        _ => Err(fault_at(words)),
    }
}

/// The words behind the `:` at the head.
pub fn colon(words: &[Word]) -> Result<&[Word], Stop>
    ensures gives { Gives (λ x. x.now) result (colon words.now) }
    ensures shorter { IfOk result (λ x. length x.now < length words.now) }
{
    match words {
        [Word::Colon, rest @ ..] => Ok(rest),
        _ => Err(fault_at(words)),
    }
}

/// The words behind the `;` at the head.
pub fn semicolon(words: &[Word]) -> Result<&[Word], Stop>
    ensures gives { Gives (λ x. x.now) result (semicolon words.now) }
    ensures shorter { IfOk result (λ x. length x.now < length words.now) }
{
    match words {
        [Word::Semicolon, rest @ ..] => Ok(rest),
        _ => Err(fault_at(words)),
    }
}

/// The words behind the `=` at the head.
pub fn assign(words: &[Word]) -> Result<&[Word], Stop>
    ensures gives { Gives (λ x. x.now) result (assign words.now) }
    ensures shorter { IfOk result (λ x. length x.now < length words.now) }
{
    match words {
        [Word::Assign, rest @ ..] => Ok(rest),
        _ => Err(fault_at(words)),
    }
}

/// The words behind the `let` at the head.
pub fn let_word(words: &[Word]) -> Result<&[Word], Stop>
    ensures gives { Gives (λ x. x.now) result (let_word words.now) }
    ensures shorter { IfOk result (λ x. length x.now < length words.now) }
{
    match words {
        [Word::Let, rest @ ..] => Ok(rest),
        _ => Err(fault_at(words)),
    }
}

/// The words behind the `of` at the head.
pub fn of_word(words: &[Word]) -> Result<&[Word], Stop>
    ensures gives { Gives (λ x. x.now) result (of_word words.now) }
    ensures shorter { IfOk result (λ x. length x.now < length words.now) }
{
    match words {
        [Word::Of, rest @ ..] => Ok(rest),
        _ => Err(fault_at(words)),
    }
}

/// The name at the head, and the words behind it.
pub fn name(alloc: Global, words: &[Word]) -> Result<(Text, &[Word]), Stop>
    ensures gives { Gives (λ x. (x.0, x.1.now)) result (name words.now) }
    ensures shorter { IfOk result (λ x. length x.1.now < length words.now) }
{
    match words {
        [Word::Name(name), rest @ ..] => Ok((name.copy(alloc)?, rest)),
        _ => Err(fault_at(words)),
    }
}

/// The key of a pair at the head, and the words behind it.
pub fn key(alloc: Global, words: &[Word]) -> Result<(Text, &[Word]), Stop>
    ensures gives { Gives (λ x. (x.0, x.1.now)) result (key words.now) }
    ensures shorter { IfOk result (λ x. length x.1.now < length words.now) }
{
    match words {
        [Word::Name(key) | Word::Quoted(key), rest @ ..] => Ok((key.copy(alloc)?, rest)),
        _ => Err(fault_at(words)),
    }
}

/// How many brackets may open behind the one at the head of these words.
pub fn enter(words: &[Word], room: u8) -> Result<u8, Stop>
    ensures { MatchResult result
        (λ r. (inside_of room ≡ Some (record { expr = expr (inside_of r); stmts = stmts (inside_of r) })) × (room ≡ r + 1))
        (λ e. (inside_of room ≡ None) × (e ≡ stops.Fault (faults.TooDeep (length words.now)))) }
{
    if room == 0 {
        Err(Stop::Fault(Fault::TooDeep(words.len())))
    } else {
        Ok(room - 1)
    }
}
