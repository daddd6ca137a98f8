//! The free names of blocks and statements.

ghost use Rattle.std.specs.Prelude.{◌≡◌, ◌++◌, [], ◌∷◌, OnOk, map};
ghost use Rattle.nb_syntax.specs.FreeNames.{without, first_occurrences, joined, stmt_uses, arm_uses, block_uses};

use crate::free::Names;
use crate::free_expr::find_expr;
use crate::scope::Scope;
use crate::tree::{Arm, Block, Stmt};
use nb_value::{Items, Text};
use std::alloc::{AllocError, Global};

/// Adds the free names of the block that aren't in scope and that weren't found before.
#[cycle(find_statements)]
pub(crate) fn find_block<'a>(
    block: &'a Block,
    alloc: Global,
    scope: &mut Scope<'a>,
    names: &mut Names,
) -> Result<(), AllocError>
    ensures names { OnOk result (names.new ≡ first_occurrences names.old (without scope.old (block_uses block.now))) }
    ensures scope { OnOk result (scope.new ≡ scope.old) }
{
    let outer = scope.len();
    for stmt in block.stmts.as_slice() {
        find_stmt(stmt, alloc, scope, names)?;
    }
    scope.truncate(outer);
    Ok(())
}

#[cycle(find_statements)]
fn find_stmt<'a>(
    stmt: &'a Stmt,
    alloc: Global,
    scope: &mut Scope<'a>,
    names: &mut Names,
) -> Result<(), AllocError>
    ensures names { OnOk result (names.new ≡ first_occurrences names.old (without scope.old (stmt_uses stmt.now).names)) }
    ensures scope { OnOk result (scope.new ≡ scope.old ++ (stmt_uses stmt.now).makes) }
{
    match stmt {
        Stmt::Let(name, value) => {
            find_expr(value, alloc, scope, names)?;
            scope.push(name)
        }
        Stmt::Assign(_, value) => find_expr(value, alloc, scope, names),
        Stmt::If(arms, other) => {
            find_arms(arms, alloc, scope, names)?;
            match other {
                None => Ok(()),
                Some(block) => find_block(block, alloc, scope, names),
            }
        }
        Stmt::While(test, body) => {
            find_expr(test, alloc, scope, names)?;
            find_block(body, alloc, scope, names)
        }
        Stmt::For(name, list, body) => {
            find_expr(list, alloc, scope, names)?;
            find_for_body(body, alloc, scope, names, name)
        }
        Stmt::Yield(value) | Stmt::Return(value) | Stmt::Throw(value) | Stmt::Cleanup(value) =>
            find_expr(value, alloc, scope, names),
    }
}

#[cycle(find_statements)]
fn find_arms<'a>(
    arms: &'a Items<Arm>,
    alloc: Global,
    scope: &mut Scope<'a>,
    names: &mut Names,
) -> Result<(), AllocError>
    ensures names { OnOk result (names.new ≡ first_occurrences names.old (without scope.old (joined (map arm_uses arms.now)))) }
    ensures scope { OnOk result (scope.new ≡ scope.old) }
{
    for arm in arms.as_slice() {
        find_expr(&arm.test, alloc, scope, names)?;
        find_block(&arm.body, alloc, scope, names)?;
    }
    Ok(())
}

// The block of a `for`, in which its name is in scope.
#[cycle(find_statements)]
fn find_for_body<'a>(
    body: &'a Block,
    alloc: Global,
    scope: &mut Scope<'a>,
    names: &mut Names,
    name: &'a Text,
) -> Result<(), AllocError>
    ensures names { OnOk result (names.new ≡ first_occurrences names.old (without scope.old (without (name.now ∷ []) (block_uses body.now)))) }
    ensures scope { OnOk result (scope.new ≡ scope.old) }
{
    let outer = scope.len();
    scope.push(name)?;
    find_block(body, alloc, scope, names)?;
    scope.truncate(outer);
    Ok(())
}
