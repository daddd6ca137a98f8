//! The cells of a made notebook, as trees.

ghost use Rattle.std.specs.Prelude.{◌≡◌, ◌≤◌, ◌<◌, ◌^◌, IfOk};
ghost use Rattle.nb_syntax.specs.declared.tree.Expr.TheVariants as tree;
ghost use Rattle.nb_make.specs.Cells.{name, named, one_operand, sum_with, one_more, number_cell, more_cell, sum_cell, yield_cell, earlier, cell_of};

use nb_syntax::{Block, Body, Cell, Expr, Operand, Sign, Stmt};
use nb_value::{Boxed, Items, Text};
use std::alloc::{AllocError, Global};

/// The cell of this number, from 1 on, by its three draws.
#[tactic(auto, unfolding(crate::specs::Cells::cell_of))]
pub(crate) fn cell_of(alloc: Global, k: u64, p: u64, q: u64, r: u64) -> Result<Cell, AllocError>
    requires { 1 ≤ k }
    ensures { IfOk result (λ c. c ≡ cell_of k p q r) }
{
    let form = p % 8;
    if k == 1 || form == 0 {
        return number_cell(alloc, k, q % 1000);
    }
    let a = earlier(k, q);
    if form < 4 {
        return more_cell(alloc, k, a);
    }
    if form < 7 {
        return sum_cell(alloc, k, a, earlier(k, r));
    }
    yield_cell(alloc, k, a)
}

/// The number of an earlier cell than this one.
fn earlier(k: u64, draw: u64) -> u64
    requires { 1 < k }
    ensures { result ≡ earlier k draw }
{
    1 + draw % (k - 1)
}

/// A cell that is a number, which is below 2 ^ 63.
pub(crate) fn number_cell(alloc: Global, k: u64, number: u64) -> Result<Cell, AllocError>
    requires { number < 2 ^ 63 }
    ensures { IfOk result (λ c. c ≡ number_cell k number) }
{
    named(alloc, k, Body::Expr(Expr::Int(number as i64)))
}

/// A cell that is one more than an earlier one.
fn more_cell(alloc: Global, k: u64, a: u64) -> Result<Cell, AllocError>
    ensures { IfOk result (λ c. c ≡ more_cell k a) }
{
    let body = one_more(alloc, a)?;
    named(alloc, k, Body::Expr(body))
}

/// A cell that is the sum of two earlier ones, without its thousands.
fn sum_cell(alloc: Global, k: u64, a: u64, b: u64) -> Result<Cell, AllocError>
    ensures { IfOk result (λ c. c ≡ sum_cell k a b) }
{
    let right = variable(alloc, b)?;
    let sum = sum(alloc, a, right)?;
    let by = one(alloc, Sign::Remainder, Expr::Int(1000))?;
    named(
        alloc,
        k,
        Body::Expr(Expr::Product(Boxed::new(alloc, sum)?, by)),
    )
}

/// A cell that yields an earlier one, and then one more.
fn yield_cell(alloc: Global, k: u64, a: u64) -> Result<Cell, AllocError>
    ensures { IfOk result (λ c. c ≡ yield_cell k a) }
{
    let mut stmts = Items::new(alloc);
    stmts.push(Stmt::Yield(variable(alloc, a)?))?;
    stmts.push(Stmt::Yield(one_more(alloc, a)?))?;
    named(alloc, k, Body::Block(Block { stmts }))
}

/// An earlier cell and 1.
fn one_more(alloc: Global, a: u64) -> Result<Expr, AllocError>
    ensures { IfOk result (λ e. e ≡ one_more a) }
{
    sum(alloc, a, Expr::Int(1))
}

/// An earlier cell and something else.
fn sum(alloc: Global, a: u64, right: Expr) -> Result<Expr, AllocError>
    ensures { IfOk result (λ e. e ≡ sum_with a right) }
{
    let more = one(alloc, Sign::Plus, right)?;
    let first = variable(alloc, a)?;
    Ok(Expr::Sum(Boxed::new(alloc, first)?, more))
}

/// One operand alone.
fn one(alloc: Global, sign: Sign, expr: Expr) -> Result<Items<Operand>, AllocError>
    ensures { IfOk result (λ more. more ≡ one_operand sign expr) }
{
    let mut more = Items::new(alloc);
    more.push(Operand { sign, expr })?;
    Ok(more)
}

/// The use of a cell.
fn variable(alloc: Global, k: u64) -> Result<Expr, AllocError>
    ensures { IfOk result (λ e. e ≡ tree.Name (name k)) }
{
    Ok(Expr::Name(name(alloc, k)?))
}

/// The cell of this number with this body.
fn named(alloc: Global, k: u64, body: Body) -> Result<Cell, AllocError>
    ensures { IfOk result (λ c. c ≡ named k body) }
{
    match name(alloc, k) {
        Ok(name) => Ok(Cell {
            name: Some(name),
            body,
        }),
        Err(error) => Err(error),
    }
}

/// The name of a cell.
fn name(alloc: Global, k: u64) -> Result<Text, AllocError>
    ensures { IfOk result (λ t. t ≡ name k) }
{
    let string = format!(in alloc; "c{k}")?;
    Ok(Text::from_string(string))
}
