//! Which cells are generators.

ghost use Rattle.std.specs.Prelude.{◌≡◌, map};
ghost use Rattle.nb_syntax.specs.Generator.{some_yield, stmt_yields, arm_yields, block_yields, is_generator};

use crate::tree::{Arm, Block, Body, Cell, Stmt};
use nb_value::Items;

/// Whether a `yield` stands in the cell's body, at any depth of blocks. It takes no memory, and time
/// linear in the statements.
pub fn is_generator(cell: &Cell) -> bool
    ensures { result ≡ is_generator cell.now }
{
    match &cell.body {
        Body::Expr(_) => false,
        Body::Block(block) => block_yields(block),
    }
}

#[cycle(yields)]
fn block_yields(block: &Block) -> bool
    ensures { result ≡ block_yields block.now }
{
    for stmt in block.stmts.as_slice() {
        if stmt_yields(stmt) {
            return true;
        }
    }
    false
}

#[cycle(yields)]
fn arms_yield(arms: &Items<Arm>) -> bool
    ensures { result ≡ some_yield (map arm_yields arms.now) }
{
    for arm in arms.as_slice() {
        if block_yields(&arm.body) {
            return true;
        }
    }
    false
}

#[cycle(yields)]
fn stmt_yields(stmt: &Stmt) -> bool
    ensures { result ≡ stmt_yields stmt.now }
{
    match stmt {
        Stmt::Yield(_) => true,
        Stmt::If(arms, other) => match other {
            None => arms_yield(arms),
            Some(block) => arms_yield(arms) || block_yields(block),
        },
        Stmt::While(_, body) => block_yields(body),
        Stmt::For(_, _, body) => block_yields(body),
        _ => false,
    }
}
