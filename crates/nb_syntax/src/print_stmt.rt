//! The text of blocks and statements.

ghost use Rattle.std.specs.Prelude.{◌≡◌, ◌++◌, OnOk, map, codes};
ghost use Rattle.nb_syntax.specs.Print.{printed, separated, arm_text, stmt_text, block_text};

use crate::draft::Draft;
use crate::print_expr::{push_between, push_within};
use crate::tree::{Arm, Block, Expr, Stmt};
use nb_value::{Items, Text};
use std::alloc::AllocError;

/// Adds the block's text, which is `{}` or has its statements with one space before and after each.
#[cycle(print_statements)]
pub(crate) fn push_block(out: &mut Draft, block: &Block) -> Result<(), AllocError>
    ensures { OnOk result (out.new ≡ out.old ++ block_text block.now) }
{
    if block.stmts.is_empty() {
        return out.push("{}");
    }
    out.push("{")?;
    for stmt in block.stmts.as_slice() {
        out.push(" ")?;
        push_stmt(out, stmt)?;
    }
    out.push(" }")
}

#[cycle(print_statements)]
fn push_stmt(out: &mut Draft, stmt: &Stmt) -> Result<(), AllocError>
    ensures { OnOk result (out.new ≡ out.old ++ stmt_text stmt.now) }
{
    match stmt {
        Stmt::Let(name, value) => {
            out.push("let ")?;
            push_assignment(out, name, value)
        }
        Stmt::Assign(name, value) => push_assignment(out, name, value),
        Stmt::If(arms, other) => match other {
            None => push_arms(out, arms),
            Some(block) => {
                push_arms(out, arms)?;
                out.push(" else ")?;
                push_block(out, block)
            }
        },
        Stmt::While(test, body) => {
            push_within(out, "while (", test, ") ")?;
            push_block(out, body)
        }
        Stmt::For(name, list, body) => {
            out.push("for (let ")?;
            out.push(name.as_str())?;
            push_within(out, " of ", list, ") ")?;
            push_block(out, body)
        }
        Stmt::Yield(value) => push_within(out, "yield ", value, ";"),
        Stmt::Return(value) => push_within(out, "return ", value, ";"),
        Stmt::Throw(value) => push_within(out, "throw ", value, ";"),
        Stmt::Cleanup(value) => push_within(out, "cleanup ", value, ";"),
    }
}

#[cycle(print_statements)]
fn push_arms(out: &mut Draft, arms: &Items<Arm>) -> Result<(), AllocError>
    ensures { OnOk result (out.new ≡ out.old ++ separated (codes " else ") (map arm_text arms.now)) }
{
    for (place, arm) in arms.as_slice().iter().enumerate() {
        push_between(out, place, " else ")?;
        push_within(out, "if (", &arm.test, ") ")?;
        push_block(out, &arm.body)?;
    }
    Ok(())
}

fn push_assignment(out: &mut Draft, name: &Text, value: &Expr) -> Result<(), AllocError>
    ensures { OnOk result (out.new ≡ out.old ++ name.now ++ codes " = " ++ printed value.now 0 ++ codes ";") }
{
    out.push(name.as_str())?;
    push_within(out, " = ", value, ";")
}
