//! Blocks and statements, by recursive descent. `room` is the number of brackets that may still open.

ghost use Rattle.std.specs.Prelude.{◌≡◌, ◌∷◌, [], IsOkAnd, MatchResult, Some, Err};
ghost use Rattle.nb_grammar.specs.Reading.{Gives, inside_of, expr, rounds, block, ended, assignment, let_stmt, arm, else_if, otherwise, if_stmt, while_stmt, each_of, each, for_stmt, next_stmt, stmts};
ghost use Rattle.nb_parser.specs.Effects.{effect_of};

use crate::expressions::{bracketed, expr};
use crate::keep::both;
use crate::marks::{
    assign, close_curly, close_round, enter, fault_at, let_word, name, of_word, semicolon,
};
use nb_grammar::Stop;
use nb_lexer::Word;
use nb_syntax::{Arm, Block, Expr, Stmt};
use nb_value::{Items, Text};
use std::alloc::Global;

/// A block at the head of the words, and the words behind it.
#[cycle(statements)]
pub fn block(alloc: Global, words: &[Word], room: u8) -> Result<(Block, &[Word]), Stop>
    ensures gives { Gives (λ x. (x.0, x.1.now)) result (block (inside_of room) words.now) }
{
    let [Word::OpenCurly, rest @ ..] = words else {
        return Err(fault_at(words));
    };
    let (stmts, rest) = stmts(alloc, rest, enter(words, room)?)?;
    Ok((Block { stmts }, rest))
}

/// The statements of a block, behind its opening bracket.
#[cycle(statements)]
fn stmts(alloc: Global, words: &[Word], room: u8) -> Result<(Items<Stmt>, &[Word]), Stop>
    ensures gives { Gives (λ x. (x.0, x.1.now)) result (stmts (inside_of room) words.now) }
{
    let mut stmts = Items::new(alloc);
    let mut rest = words;
    'turns: loop {
        let (found, behind) = next_stmt(alloc, rest, room)?;
        match found {
            Some(stmt) => stmts.push(stmt)?,
            None => return Ok((stmts, close_curly(behind)?)),
        }
        rest = behind;
    }
}

/// A statement at the head of the words, where one begins there.
#[cycle(statements)]
fn next_stmt(alloc: Global, words: &[Word], room: u8) -> Result<(Option<Stmt>, &[Word]), Stop>
    ensures gives { Gives (λ x. (x.0, x.1.now)) result (next_stmt (inside_of room) words.now) }
{
    match words {
        [Word::Name(name), rest @ ..] => found(assignment(alloc, name, rest, room)),
        [Word::Let, rest @ ..] => found(let_stmt(alloc, rest, room)),
        [Word::If, rest @ ..] => found(if_stmt(alloc, rest, room)),
        [Word::While, rest @ ..] => found(while_stmt(alloc, rest, room)),
        [Word::For, rest @ ..] => found(for_stmt(alloc, rest, room)),
        [Word::Yield, rest @ ..] => found_effect(Effect::Yield, ended(alloc, rest, room)),
        [Word::Return, rest @ ..] => found_effect(Effect::Return, ended(alloc, rest, room)),
        [Word::Throw, rest @ ..] => found_effect(Effect::Throw, ended(alloc, rest, room)),
        [Word::Cleanup, rest @ ..] => found_effect(Effect::Cleanup, ended(alloc, rest, room)),
        _ => Ok((None, words)),
    }
}

fn found(read: Result<(Stmt, &[Word]), Stop>) -> Result<(Option<Stmt>, &[Word]), Stop>
    ensures { MatchResult read.entry
        (λ r. IsOkAnd result (λ x. (x.0 ≡ Some r.0) × (x.1.now ≡ r.1.now)))
        (λ e. result ≡ Err e) }
{
    let (stmt, rest) = read?;
    Ok((Some(stmt), rest))
}

/// What a statement with a value does with it.
#[derive(Clone, Copy)]
enum Effect {
    Yield,
    Return,
    Throw,
    Cleanup,
}

fn found_effect(
    effect: Effect,
    read: Result<(Expr, &[Word]), Stop>,
) -> Result<(Option<Stmt>, &[Word]), Stop>
    ensures { MatchResult read.entry
        (λ r. IsOkAnd result (λ x. (x.0 ≡ Some (effect_of effect r.0)) × (x.1.now ≡ r.1.now)))
        (λ e. result ≡ Err e) }
{
    let (value, rest) = read?;
    Ok((Some(effect_of(effect, value)), rest))
}

fn effect_of(effect: Effect, value: Expr) -> Stmt
    ensures { result ≡ effect_of effect value }
{
    match effect {
        Effect::Yield => Stmt::Yield(value),
        Effect::Return => Stmt::Return(value),
        Effect::Throw => Stmt::Throw(value),
        Effect::Cleanup => Stmt::Cleanup(value),
    }
}

/// The expression at the head of the words, with the `;` that ends it.
fn ended(alloc: Global, words: &[Word], room: u8) -> Result<(Expr, &[Word]), Stop>
    ensures gives { Gives (λ x. (x.0, x.1.now)) result (ended (inside_of room) words.now) }
{
    let (value, rest) = expr(alloc, words, room)?;
    both(value, semicolon(rest))
}

/// An assignment, behind its name.
fn assignment<'a>(
    alloc: Global,
    name: &Text,
    words: &'a [Word],
    room: u8,
) -> Result<(Stmt, &'a [Word]), Stop>
    ensures gives { Gives (λ x. (x.0, x.1.now)) result (assignment (inside_of room) name.now words.now) }
{
    let rest = assign(words)?;
    let name = name.copy(alloc)?;
    let (value, rest) = ended(alloc, rest, room)?;
    Ok((Stmt::Assign(name, value), rest))
}

/// What stands behind `let`.
fn let_stmt(alloc: Global, words: &[Word], room: u8) -> Result<(Stmt, &[Word]), Stop>
    ensures gives { Gives (λ x. (x.0, x.1.now)) result (let_stmt (inside_of room) words.now) }
{
    let (name, rest) = name(alloc, words)?;
    let (value, rest) = ended(alloc, assign(rest)?, room)?;
    Ok((Stmt::Let(name, value), rest))
}

/// What stands behind `if`.
#[cycle(statements)]
fn if_stmt(alloc: Global, words: &[Word], room: u8) -> Result<(Stmt, &[Word]), Stop>
    ensures gives { Gives (λ x. (x.0, x.1.now)) result (if_stmt (inside_of room) words.now) }
{
    let (first, rest) = arm(alloc, words, room)?;
    let (arms, rest) = arms(alloc, first, rest, room)?;
    let (other, rest) = otherwise(alloc, rest, room)?;
    Ok((Stmt::If(arms, other), rest))
}

/// A test in brackets with its block.
#[cycle(statements)]
fn arm(alloc: Global, words: &[Word], room: u8) -> Result<(Arm, &[Word]), Stop>
    ensures gives { Gives (λ x. (x.0, x.1.now)) result (arm (inside_of room) words.now) }
{
    let (test, rest) = bracketed(alloc, words, room)?;
    let (test, (body, rest)) = both(test, block(alloc, rest, room))?;
    Ok((Arm { test, body }, rest))
}

/// The first arm of an `if`, and those behind it.
#[cycle(statements)]
fn arms(alloc: Global, first: Arm, words: &[Word], room: u8) -> Result<(Items<Arm>, &[Word]), Stop>
    ensures gives { Gives (λ x. (x.0, x.1.now)) result (rounds (else_if (inside_of room)) (first ∷ []) words.now) }
{
    let mut arms = Items::new(alloc);
    arms.push(first)?;
    let mut rest = words;
    'turns: loop {
        let (found, behind) = else_if(alloc, rest, room)?;
        match found {
            Some(arm) => arms.push(arm)?,
            None => return Ok((arms, behind)),
        }
        rest = behind;
    }
}

/// An arm behind `else if` at the head of the words, if that stands there.
#[cycle(statements)]
fn else_if(alloc: Global, words: &[Word], room: u8) -> Result<(Option<Arm>, &[Word]), Stop>
    ensures gives { Gives (λ x. (x.0, x.1.now)) result (else_if (inside_of room) words.now) }
{
    match words {
        [Word::Else, Word::If, rest @ ..] => {
            let (arm, rest) = arm(alloc, rest, room)?;
            Ok((Some(arm), rest))
        }
        _ => Ok((None, words)),
    }
}

/// The block behind `else` at the head of the words, if that stands there.
#[cycle(statements)]
fn otherwise(alloc: Global, words: &[Word], room: u8) -> Result<(Option<Block>, &[Word]), Stop>
    ensures gives { Gives (λ x. (x.0, x.1.now)) result (otherwise (inside_of room) words.now) }
{
    match words {
        [Word::Else, rest @ ..] => {
            let (block, rest) = block(alloc, rest, room)?;
            Ok((Some(block), rest))
        }
        _ => Ok((None, words)),
    }
}

/// What stands behind `while`.
#[cycle(statements)]
fn while_stmt(alloc: Global, words: &[Word], room: u8) -> Result<(Stmt, &[Word]), Stop>
    ensures gives { Gives (λ x. (x.0, x.1.now)) result (while_stmt (inside_of room) words.now) }
{
    let (arm, rest) = arm(alloc, words, room)?;
    Ok((Stmt::While(arm.test, arm.body), rest))
}

/// What stands behind `for`.
#[cycle(statements)]
fn for_stmt(alloc: Global, words: &[Word], room: u8) -> Result<(Stmt, &[Word]), Stop>
    ensures gives { Gives (λ x. (x.0, x.1.now)) result (for_stmt (inside_of room) words.now) }
{
    let (name, list, rest) = each(alloc, words, room)?;
    let (list, (body, rest)) = both(list, block(alloc, rest, room))?;
    Ok((Stmt::For(name, list, body), rest))
}

/// The name and the list of a `for`, in their brackets.
fn each(alloc: Global, words: &[Word], room: u8) -> Result<(Text, Expr, &[Word]), Stop>
    ensures gives { Gives (λ x. ((x.0, x.1), x.2.now)) result (each (inside_of room) words.now) }
{
    let [Word::OpenRound, rest @ ..] = words else {
        return Err(fault_at(words));
    };
    each_of(alloc, rest, enter(words, room)?)
}

/// The name and the list of a `for`, behind the opening bracket.
fn each_of(alloc: Global, words: &[Word], room: u8) -> Result<(Text, Expr, &[Word]), Stop>
    ensures gives { Gives (λ x. ((x.0, x.1), x.2.now)) result (each_of (expr (inside_of room)) words.now) }
{
    let (name, rest) = name(alloc, let_word(words)?)?;
    let (list, rest) = expr(alloc, of_word(rest)?, room)?;
    let (list, rest) = both(list, close_round(rest))?;
    Ok((name, list, rest))
}
