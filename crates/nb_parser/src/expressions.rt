//! Expressions, by recursive descent: one function for a level, and `room`, the number of brackets that may still open.

ghost use Rattle.std.specs.Prelude.{[]};
ghost use Rattle.nb_grammar.specs.Words.{called, product_sign, sum_sign};
ghost use Rattle.nb_grammar.specs.Reading.{Gives, inside_of, rounds, expr, choice, or, or_part, and, and_part, compare, sum, product, operand, unary, postfix, step, primary, named, call, bracketed, items, pairs, pair, name, key};

use crate::functions::function_of;
use crate::keep::both;
use crate::marks::{
    after_and, after_comma, after_or, close_curly, close_round, close_square, colon, comma, enter,
    fault_at, key, name,
};
use crate::nodes::{and_of, compare_of, fetch_of, or_of, path_of, product_of, sum_of, unary_of};
use crate::operators::{compare_sign, product_sign, sum_sign};
use nb_grammar::Stop;
use nb_lexer::Word;
use nb_syntax::{Expr, Member, Operand, PathStep, Sign};
use nb_value::{Boxed, Function, Items, Text};
use std::alloc::Global;

/// An expression at the head of the words, and the words behind it.
#[cycle(expressions)]
pub fn expr(alloc: Global, words: &[Word], room: u8) -> Result<(Expr, &[Word]), Stop>
    ensures gives { Gives (λ x. (x.0, x.1.now)) result (expr (inside_of room) words.now) }
{
    let (test, rest) = or(alloc, words, room)?;
    choice(alloc, test, rest, room)
}

/// What begins with a test, behind which the words stand: a choice, or the test itself.
#[cycle(expressions)]
fn choice(alloc: Global, test: Expr, words: &[Word], room: u8) -> Result<(Expr, &[Word]), Stop>
    ensures gives { Gives (λ x. (x.0, x.1.now)) result (choice (inside_of room) test words.now) }
{
    let [Word::Question, rest @ ..] = words else {
        return Ok((test, words));
    };
    let test = Boxed::new(alloc, test)?;
    let (yes, rest) = or(alloc, rest, room)?;
    let yes = Boxed::new(alloc, yes)?;
    let (no, rest) = or(alloc, colon(rest)?, room)?;
    Ok((Expr::Choose(test, yes, Boxed::new(alloc, no)?), rest))
}

#[cycle(expressions)]
fn or(alloc: Global, words: &[Word], room: u8) -> Result<(Expr, &[Word]), Stop>
    ensures gives { Gives (λ x. (x.0, x.1.now)) result (or (inside_of room) words.now) }
{
    let (first, rest) = and(alloc, words, room)?;
    let (first, (more, rest)) = both(first, or_parts(alloc, rest, room))?;
    Ok((or_of(alloc, first, more)?, rest))
}

/// The parts at the head of the words, each behind its `||`.
#[cycle(expressions)]
fn or_parts(alloc: Global, words: &[Word], room: u8) -> Result<(Items<Expr>, &[Word]), Stop>
    ensures gives { Gives (λ x. (x.0, x.1.now)) result (rounds (or_part (inside_of room)) [] words.now) }
{
    let mut more = Items::new(alloc);
    let mut rest = words;
    'parts: while let Some(behind) = after_or(rest) {
        let (part, behind) = and(alloc, behind, room)?;
        more.push(part)?;
        rest = behind;
    }
    Ok((more, rest))
}

#[cycle(expressions)]
fn and(alloc: Global, words: &[Word], room: u8) -> Result<(Expr, &[Word]), Stop>
    ensures gives { Gives (λ x. (x.0, x.1.now)) result (and (inside_of room) words.now) }
{
    let (first, rest) = comparison(alloc, words, room)?;
    let (first, (more, rest)) = both(first, and_parts(alloc, rest, room))?;
    Ok((and_of(alloc, first, more)?, rest))
}

/// The parts at the head of the words, each behind its `&&`.
#[cycle(expressions)]
fn and_parts(alloc: Global, words: &[Word], room: u8) -> Result<(Items<Expr>, &[Word]), Stop>
    ensures gives { Gives (λ x. (x.0, x.1.now)) result (rounds (and_part (inside_of room)) [] words.now) }
{
    let mut more = Items::new(alloc);
    let mut rest = words;
    'parts: while let Some(behind) = after_and(rest) {
        let (part, behind) = comparison(alloc, behind, room)?;
        more.push(part)?;
        rest = behind;
    }
    Ok((more, rest))
}

#[cycle(expressions)]
fn comparison(alloc: Global, words: &[Word], room: u8) -> Result<(Expr, &[Word]), Stop>
    ensures gives { Gives (λ x. (x.0, x.1.now)) result (compare (inside_of room) words.now) }
{
    let (left, rest) = sum(alloc, words, room)?;
    let Some((sign, behind)) = compare_sign(rest) else {
        return Ok((left, rest));
    };
    let (left, (right, rest)) = both(left, sum(alloc, behind, room))?;
    Ok((compare_of(alloc, sign, left, right)?, rest))
}

#[cycle(expressions)]
fn sum(alloc: Global, words: &[Word], room: u8) -> Result<(Expr, &[Word]), Stop>
    ensures gives { Gives (λ x. (x.0, x.1.now)) result (sum (inside_of room) words.now) }
{
    let (first, rest) = product(alloc, words, room)?;
    let (first, (more, rest)) = both(first, summands(alloc, rest, room))?;
    Ok((sum_of(alloc, first, more)?, rest))
}

/// The products at the head of the words, each behind its `+` or `-`.
#[cycle(expressions)]
fn summands(alloc: Global, words: &[Word], room: u8) -> Result<(Items<Operand>, &[Word]), Stop>
    ensures gives { Gives (λ x. (x.0, x.1.now)) result (rounds (operand sum_sign (product (inside_of room))) [] words.now) }
{
    let mut more = Items::new(alloc);
    let mut rest = words;
    'operands: while let Some((sign, behind)) = sum_sign(rest) {
        let (expr, behind) = product(alloc, behind, room)?;
        more.push(Operand { sign, expr })?;
        rest = behind;
    }
    Ok((more, rest))
}

#[cycle(expressions)]
fn product(alloc: Global, words: &[Word], room: u8) -> Result<(Expr, &[Word]), Stop>
    ensures gives { Gives (λ x. (x.0, x.1.now)) result (product (inside_of room) words.now) }
{
    let (first, rest) = unary(alloc, words, room)?;
    let (first, (more, rest)) = both(first, factors(alloc, rest, room))?;
    Ok((product_of(alloc, first, more)?, rest))
}

/// The factors at the head of the words, each behind its `*`, `/` or `%`.
#[cycle(expressions)]
fn factors(alloc: Global, words: &[Word], room: u8) -> Result<(Items<Operand>, &[Word]), Stop>
    ensures gives { Gives (λ x. (x.0, x.1.now)) result (rounds (operand product_sign (unary (inside_of room))) [] words.now) }
{
    let mut more = Items::new(alloc);
    let mut rest = words;
    'operands: while let Some((sign, behind)) = product_sign(rest) {
        let (expr, behind) = unary(alloc, behind, room)?;
        more.push(Operand { sign, expr })?;
        rest = behind;
    }
    Ok((more, rest))
}

#[cycle(expressions)]
fn unary(alloc: Global, words: &[Word], room: u8) -> Result<(Expr, &[Word]), Stop>
    ensures gives { Gives (λ x. (x.0, x.1.now)) result (unary (inside_of room) words.now) }
{
    match words {
        [Word::Minus, rest @ ..] => {
            let (part, rest) = postfix(alloc, rest, room)?;
            Ok((unary_of(alloc, Sign::Minus, part)?, rest))
        }
        [Word::Not, rest @ ..] => {
            let (part, rest) = postfix(alloc, rest, room)?;
            Ok((unary_of(alloc, Sign::Not, part)?, rest))
        }
        _ => postfix(alloc, words, room),
    }
}

#[cycle(expressions)]
fn postfix(alloc: Global, words: &[Word], room: u8) -> Result<(Expr, &[Word]), Stop>
    ensures gives { Gives (λ x. (x.0, x.1.now)) result (postfix (inside_of room) words.now) }
{
    let (root, rest) = primary(alloc, words, room)?;
    let (root, (steps, rest)) = both(root, path_steps(alloc, rest, room))?;
    Ok((path_of(alloc, root, steps)?, rest))
}

/// The steps at the head of the words.
#[cycle(expressions)]
fn path_steps(alloc: Global, words: &[Word], room: u8) -> Result<(Items<PathStep>, &[Word]), Stop>
    ensures gives { Gives (λ x. (x.0, x.1.now)) result (rounds (step (inside_of room)) [] words.now) }
{
    let mut steps = Items::new(alloc);
    let mut rest = words;
    'turns: loop {
        let (found, behind) = step(alloc, rest, room)?;
        match found {
            Some(step) => steps.push(step)?,
            None => return Ok((steps, behind)),
        }
        rest = behind;
    }
}

/// A step at the head of the words, if there is one.
#[cycle(expressions)]
fn step(alloc: Global, words: &[Word], room: u8) -> Result<(Option<PathStep>, &[Word]), Stop>
    ensures gives { Gives (λ x. (x.0, x.1.now)) result (step (inside_of room) words.now) }
{
    match words {
        [Word::Dot, rest @ ..] => {
            let (name, rest) = name(alloc, rest)?;
            Ok((Some(PathStep::Field(name)), rest))
        }
        [Word::OpenSquare, rest @ ..] => {
            let (index, rest) = expr(alloc, rest, enter(words, room)?)?;
            let (index, rest) = both(index, close_square(rest))?;
            Ok((Some(PathStep::At(index)), rest))
        }
        _ => Ok((None, words)),
    }
}

#[cycle(expressions)]
fn primary(alloc: Global, words: &[Word], room: u8) -> Result<(Expr, &[Word]), Stop>
    ensures gives { Gives (λ x. (x.0, x.1.now)) result (primary (inside_of room) words.now) }
{
    match words {
        [Word::Number(number), rest @ ..] => Ok((Expr::Int(*number), rest)),
        [Word::Quoted(text), rest @ ..] => Ok((Expr::Quoted(text.copy(alloc)?), rest)),
        [Word::True, rest @ ..] => Ok((Expr::Bool(true), rest)),
        [Word::False, rest @ ..] => Ok((Expr::Bool(false), rest)),
        [Word::Null, rest @ ..] => Ok((Expr::Null, rest)),
        [Word::Name(name), rest @ ..] => named(alloc, name, rest, room),
        [Word::Fetch, rest @ ..] => {
            let (key, rest) = bracketed(alloc, rest, room)?;
            Ok((fetch_of(alloc, key)?, rest))
        }
        [Word::OpenRound, ..] => bracketed(alloc, words, room),
        [Word::OpenSquare, rest @ ..] => items(alloc, rest, enter(words, room)?),
        [Word::OpenCurly, rest @ ..] => pairs(alloc, rest, enter(words, room)?),
        _ => Err(fault_at(words)),
    }
}

/// An expression in round brackets at the head of the words.
#[cycle(expressions)]
pub fn bracketed(alloc: Global, words: &[Word], room: u8) -> Result<(Expr, &[Word]), Stop>
    ensures gives { Gives (λ x. (x.0, x.1.now)) result (bracketed (inside_of room) words.now) }
{
    let [Word::OpenRound, rest @ ..] = words else {
        return Err(fault_at(words));
    };
    let (inner, rest) = expr(alloc, rest, enter(words, room)?)?;
    both(inner, close_round(rest))
}

/// What begins with a name, behind which the words stand: a call of a function, or the name itself.
#[cycle(expressions)]
fn named<'a>(
    alloc: Global,
    name: &Text,
    words: &'a [Word],
    room: u8,
) -> Result<(Expr, &'a [Word]), Stop>
    ensures gives { Gives (λ x. (x.0, x.1.now)) result (named (inside_of room) name.now (called name.now) words.now) }
{
    match (function_of(name), words) {
        (Some(function), [Word::OpenRound, rest @ ..]) => {
            call(alloc, function, rest, enter(words, room)?)
        }
        _ => Ok((Expr::Name(name.copy(alloc)?), words)),
    }
}

/// The arguments of a function, behind their opening bracket.
#[cycle(expressions)]
fn call(
    alloc: Global,
    function: Function,
    words: &[Word],
    room: u8,
) -> Result<(Expr, &[Word]), Stop>
    ensures gives { Gives (λ x. (x.0, x.1.now)) result (call (expr (inside_of room)) function words.now) }
{
    let (first, mut rest) = expr(alloc, words, room)?;
    let mut args = Items::new(alloc);
    args.push(first)?;
    for _ in 1..function.arity() {
        let (arg, behind) = expr(alloc, comma(rest)?, room)?;
        args.push(arg)?;
        rest = behind;
    }
    let rest = close_round(rest)?;
    Ok((Expr::Call(function, args), rest))
}

/// The items of a list, behind its opening bracket.
#[cycle(expressions)]
fn items(alloc: Global, words: &[Word], room: u8) -> Result<(Expr, &[Word]), Stop>
    ensures gives { Gives (λ x. (x.0, x.1.now)) result (items (expr (inside_of room)) words.now) }
{
    let mut items = Items::new(alloc);
    if let [Word::CloseSquare, rest @ ..] = words {
        return Ok((Expr::List(items), rest));
    }
    let (first, mut rest) = expr(alloc, words, room)?;
    items.push(first)?;
    'more: while let Some(behind) = after_comma(rest) {
        let (item, behind) = expr(alloc, behind, room)?;
        items.push(item)?;
        rest = behind;
    }
    let rest = close_square(rest)?;
    Ok((Expr::List(items), rest))
}

/// The pairs of a record, behind its opening bracket.
#[cycle(expressions)]
fn pairs(alloc: Global, words: &[Word], room: u8) -> Result<(Expr, &[Word]), Stop>
    ensures gives { Gives (λ x. (x.0, x.1.now)) result (pairs (expr (inside_of room)) words.now) }
{
    let mut pairs = Items::new(alloc);
    if let [Word::CloseCurly, rest @ ..] = words {
        return Ok((Expr::Rec(pairs), rest));
    }
    let (first, mut rest) = pair(alloc, words, room)?;
    pairs.push(first)?;
    'more: while let Some(behind) = after_comma(rest) {
        let (next, behind) = pair(alloc, behind, room)?;
        pairs.push(next)?;
        rest = behind;
    }
    let rest = close_curly(rest)?;
    Ok((Expr::Rec(pairs), rest))
}

#[cycle(expressions)]
fn pair(alloc: Global, words: &[Word], room: u8) -> Result<(Member, &[Word]), Stop>
    ensures gives { Gives (λ x. (x.0, x.1.now)) result (pair (expr (inside_of room)) words.now) }
{
    let (key, rest) = key(alloc, words)?;
    let (value, rest) = expr(alloc, colon(rest)?, room)?;
    Ok((Member { key, value }, rest))
}
