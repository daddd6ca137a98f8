//! The lengths of the texts of expressions, up to the end of u64.

ghost use Rattle.std.specs.Prelude.{◌≡◌, ◌-◌, ◌^◌, ◌==◌, length, min, map, codes, [], if◌then◌else◌};
ghost use Rattle.std.specs.Fmt.{signed_decimal};
ghost use Rattle.nb_syntax.specs.Print.{bare, printed, operand, operand_text, operands_text, parts_text, separated, member_text, path_step_text, steps_text};

use crate::level::{AND, COMPARISON, EXPR, OR, POSTFIX, PRIMARY, PRODUCT, SUM, UNARY, level};
use crate::print_expr::sign_text;
use crate::quoted::quoted_len;
use crate::tree::{Expr, Member, Operand, PathStep, Sign};
use nb_value::Items;

/// The length of the expression's text, in brackets where its level is lower than the one asked for.
#[cycle(length)]
pub(crate) fn expr_len(expr: &Expr, asked: u8) -> u64
    ensures { result ≡ min (length (printed expr.now asked)) (2 ^ 64 - 1) }
{
    if level(expr) < asked {
        bare_len(expr).saturating_add(2)
    } else {
        bare_len(expr)
    }
}

#[cycle(length)]
fn bare_len(expr: &Expr) -> u64
    ensures { result ≡ min (length (bare expr.now).text) (2 ^ 64 - 1) }
{
    match expr {
        Expr::Int(n) => int_len(*n),
        Expr::Quoted(text) => quoted_len(text.as_str()),
        Expr::Bool(b) => if *b { 4 } else { 5 },
        Expr::Null => 4,
        Expr::Name(name) => name.len() as u64,
        Expr::List(items) => parts_len(items, ", ", EXPR).saturating_add(2),
        Expr::Rec(members) => members_len(members).saturating_add(2),
        Expr::Call(function, args) => (function.name().len() as u64)
            .saturating_add(parts_len(args, ", ", EXPR))
            .saturating_add(2),
        Expr::Fetch(key) => expr_len(key.get(), EXPR).saturating_add(7),
        Expr::Path(root, steps) => expr_len(root.get(), PRIMARY).saturating_add(steps_len(steps)),
        Expr::Unary(sign, part) => (sign_text(*sign).len() as u64).saturating_add(expr_len(
            part.get(),
            POSTFIX,
        )),
        Expr::Product(first, more) => {
            expr_len(first.get(), UNARY).saturating_add(operands_len(more, UNARY))
        }
        Expr::Sum(first, more) => {
            expr_len(first.get(), PRODUCT).saturating_add(operands_len(more, PRODUCT))
        }
        Expr::Compare(sign, left, right) => {
            expr_len(left.get(), SUM).saturating_add(operand_len(*sign, right.get(), SUM))
        }
        Expr::And(parts) => parts_len(parts, " && ", COMPARISON),
        Expr::Or(parts) => parts_len(parts, " || ", AND),
        Expr::Choose(test, yes, no) => expr_len(test.get(), OR)
            .saturating_add(expr_len(yes.get(), OR))
            .saturating_add(expr_len(no.get(), OR))
            .saturating_add(6),
    }
}

#[cycle(length)]
fn parts_len(parts: &Items<Expr>, separator: &str, asked: u8) -> u64
    ensures { result ≡ min (length (parts_text separator.now asked (map bare parts.now))) (2 ^ 64 - 1) }
{
    let mut total = 0u64;
    for (place, part) in parts.as_slice().iter().enumerate() {
        let length = between_len(place, separator).saturating_add(expr_len(part, asked));
        total = total.saturating_add(length);
    }
    total
}

// The first of a row has no separator before it.
pub(crate) fn between_len(place: usize, separator: &str) -> u64
    ensures { result ≡ length (if place == 0 then [] else separator.now) }
{
    if place == 0 {
        0
    } else {
        separator.len() as u64
    }
}

#[cycle(length)]
fn members_len(members: &Items<Member>) -> u64
    ensures { result ≡ min (length (separated (codes ", ") (map member_text members.now))) (2 ^ 64 - 1) }
{
    let mut total = 0u64;
    for (place, member) in members.as_slice().iter().enumerate() {
        let value = expr_len(&member.value, EXPR);
        let pair = quoted_len(member.key.as_str())
            .saturating_add(2)
            .saturating_add(value);
        total = total.saturating_add(between_len(place, ", ").saturating_add(pair));
    }
    total
}

#[cycle(length)]
fn steps_len(steps: &Items<PathStep>) -> u64
    ensures { result ≡ min (length (steps_text (map path_step_text steps.now))) (2 ^ 64 - 1) }
{
    let mut total = 0u64;
    for step in steps.as_slice() {
        total = total.saturating_add(step_len(step));
    }
    total
}

#[cycle(length)]
fn step_len(step: &PathStep) -> u64
    ensures { result ≡ min (length (path_step_text step.now)) (2 ^ 64 - 1) }
{
    match step {
        PathStep::Field(name) => (name.len() as u64).saturating_add(1),
        PathStep::At(index) => expr_len(index, EXPR).saturating_add(2),
    }
}

#[cycle(length)]
fn operands_len(operands: &Items<Operand>, asked: u8) -> u64
    ensures { result ≡ min (length (operands_text asked (map operand operands.now))) (2 ^ 64 - 1) }
{
    let mut total = 0u64;
    for operand in operands.as_slice() {
        total = total.saturating_add(operand_len(operand.sign, &operand.expr, asked));
    }
    total
}

// The sign has a space on each side.
#[cycle(length)]
fn operand_len(sign: Sign, part: &Expr, asked: u8) -> u64
    ensures { result ≡ min (length (operand_text asked (sign, bare part.now))) (2 ^ 64 - 1) }
{
    (sign_text(sign).len() as u64)
        .saturating_add(2)
        .saturating_add(expr_len(part, asked))
}

fn int_len(n: i64) -> u64
    ensures { result ≡ length (signed_decimal n) }
{
    let mut buffer = itoa::Buffer::new();
    buffer.format(n).len() as u64
}
