//! Which cells are plain.

ghost use Rattle.std.specs.Prelude.{◌≡◌, map};
ghost use Rattle.nb_syntax.specs.Plain.{all_plain, expr_plain, path_step_plain, member_plain, operand_plain, stmt_plain, arm_plain, block_plain, is_plain};

use crate::tree::{Arm, Block, Body, Cell, Expr, Member, Operand, PathStep, Stmt};
use nb_value::Items;

/// Whether no `fetch`, `yield` or `cleanup` stands anywhere in the cell. It takes no memory, and time linear
/// in the nodes.
pub fn is_plain(cell: &Cell) -> bool
    ensures { result ≡ is_plain cell.now }
{
    match &cell.body {
        Body::Expr(expr) => expr_plain(expr),
        Body::Block(block) => block_plain(block),
    }
}

#[cycle(plain)]
fn expr_plain(expr: &Expr) -> bool
    ensures { result ≡ expr_plain expr.now }
{
    match expr {
        Expr::Int(_) | Expr::Quoted(_) | Expr::Bool(_) | Expr::Null | Expr::Name(_) => true,
        Expr::List(items) => exprs_plain(items),
        Expr::Rec(members) => members_plain(members),
        Expr::Call(_, args) => exprs_plain(args),
        Expr::Fetch(_) => false,
        Expr::Path(root, steps) => expr_plain(root.get()) && steps_plain(steps),
        Expr::Unary(_, part) => expr_plain(part.get()),
        Expr::Product(first, more) => expr_plain(first.get()) && operands_plain(more),
        Expr::Sum(first, more) => expr_plain(first.get()) && operands_plain(more),
        Expr::Compare(_, left, right) => expr_plain(left.get()) && expr_plain(right.get()),
        Expr::And(parts) => exprs_plain(parts),
        Expr::Or(parts) => exprs_plain(parts),
        Expr::Choose(test, yes, no) => {
            expr_plain(test.get()) && expr_plain(yes.get()) && expr_plain(no.get())
        }
    }
}

#[cycle(plain)]
fn exprs_plain(exprs: &Items<Expr>) -> bool
    ensures { result ≡ all_plain (map expr_plain exprs.now) }
{
    for expr in exprs.as_slice() {
        if !expr_plain(expr) {
            return false;
        }
    }
    true
}

#[cycle(plain)]
fn members_plain(members: &Items<Member>) -> bool
    ensures { result ≡ all_plain (map member_plain members.now) }
{
    for member in members.as_slice() {
        if !expr_plain(&member.value) {
            return false;
        }
    }
    true
}

#[cycle(plain)]
fn steps_plain(steps: &Items<PathStep>) -> bool
    ensures { result ≡ all_plain (map path_step_plain steps.now) }
{
    for step in steps.as_slice() {
        if !step_plain(step) {
            return false;
        }
    }
    true
}

#[cycle(plain)]
fn step_plain(step: &PathStep) -> bool
    ensures { result ≡ path_step_plain step.now }
{
    match step {
        PathStep::Field(_) => true,
        PathStep::At(index) => expr_plain(index),
    }
}

#[cycle(plain)]
fn operands_plain(operands: &Items<Operand>) -> bool
    ensures { result ≡ all_plain (map operand_plain operands.now) }
{
    for operand in operands.as_slice() {
        if !expr_plain(&operand.expr) {
            return false;
        }
    }
    true
}

#[cycle(plain_statements)]
fn block_plain(block: &Block) -> bool
    ensures { result ≡ block_plain block.now }
{
    for stmt in block.stmts.as_slice() {
        if !stmt_plain(stmt) {
            return false;
        }
    }
    true
}

#[cycle(plain_statements)]
fn arms_plain(arms: &Items<Arm>) -> bool
    ensures { result ≡ all_plain (map arm_plain arms.now) }
{
    for arm in arms.as_slice() {
        if !(expr_plain(&arm.test) && block_plain(&arm.body)) {
            return false;
        }
    }
    true
}

#[cycle(plain_statements)]
fn stmt_plain(stmt: &Stmt) -> bool
    ensures { result ≡ stmt_plain stmt.now }
{
    match stmt {
        Stmt::Let(_, value) => expr_plain(value),
        Stmt::Assign(_, value) => expr_plain(value),
        Stmt::If(arms, other) => match other {
            None => arms_plain(arms),
            Some(block) => arms_plain(arms) && block_plain(block),
        },
        Stmt::While(test, body) => expr_plain(test) && block_plain(body),
        Stmt::For(_, list, body) => expr_plain(list) && block_plain(body),
        Stmt::Yield(_) | Stmt::Cleanup(_) => false,
        Stmt::Return(value) => expr_plain(value),
        Stmt::Throw(value) => expr_plain(value),
    }
}
