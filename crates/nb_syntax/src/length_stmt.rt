//! The lengths of the texts of blocks and statements, up to the end of u64.

ghost use Rattle.std.specs.Prelude.{◌≡◌, ◌++◌, ◌-◌, ◌^◌, length, min, map, codes};
ghost use Rattle.nb_syntax.specs.Print.{printed, separated, arm_text, stmt_text, block_text};

use crate::length_expr::{between_len, expr_len};
use crate::level::EXPR;
use crate::tree::{Arm, Block, Expr, Stmt};
use nb_value::{Items, Text};

/// The length of the block's text.
#[cycle(length_statements)]
pub(crate) fn block_len(block: &Block) -> u64
    ensures { result ≡ min (length (block_text block.now)) (2 ^ 64 - 1) }
{
    if block.stmts.is_empty() {
        return 2;
    }
    let mut total = 3u64;
    for stmt in block.stmts.as_slice() {
        total = total.saturating_add(stmt_len(stmt).saturating_add(1));
    }
    total
}

#[cycle(length_statements)]
fn stmt_len(stmt: &Stmt) -> u64
    ensures { result ≡ min (length (stmt_text stmt.now)) (2 ^ 64 - 1) }
{
    match stmt {
        Stmt::Let(name, value) => assignment_len(name, value).saturating_add(4),
        Stmt::Assign(name, value) => assignment_len(name, value),
        Stmt::If(arms, other) => match other {
            None => arms_len(arms),
            Some(block) => arms_len(arms)
                .saturating_add(6)
                .saturating_add(block_len(block)),
        },
        Stmt::While(test, body) => within_len("while (", test, ") ").saturating_add(block_len(
            body,
        )),
        Stmt::For(name, list, body) => (name.len() as u64)
            .saturating_add(9)
            .saturating_add(within_len(" of ", list, ") "))
            .saturating_add(block_len(body)),
        Stmt::Yield(value) => within_len("yield ", value, ";"),
        Stmt::Return(value) => within_len("return ", value, ";"),
        Stmt::Throw(value) => within_len("throw ", value, ";"),
        Stmt::Cleanup(value) => within_len("cleanup ", value, ";"),
    }
}

#[cycle(length_statements)]
fn arms_len(arms: &Items<Arm>) -> u64
    ensures { result ≡ min (length (separated (codes " else ") (map arm_text arms.now))) (2 ^ 64 - 1) }
{
    let mut total = 0u64;
    for (place, arm) in arms.as_slice().iter().enumerate() {
        let length = within_len("if (", &arm.test, ") ").saturating_add(block_len(&arm.body));
        total = total.saturating_add(between_len(place, " else ").saturating_add(length));
    }
    total
}

fn assignment_len(name: &Text, value: &Expr) -> u64
    ensures { result ≡ min (length (name.now ++ codes " = " ++ printed value.now 0 ++ codes ";")) (2 ^ 64 - 1) }
{
    (name.len() as u64).saturating_add(within_len(" = ", value, ";"))
}

// An expression at the lowest level, between two texts.
fn within_len(before: &str, expr: &Expr, after: &str) -> u64
    ensures { result ≡ min (length (before.now ++ printed expr.now 0 ++ after.now)) (2 ^ 64 - 1) }
{
    (before.len() as u64)
        .saturating_add(expr_len(expr, EXPR))
        .saturating_add(after.len() as u64)
}
