//! The code of statements and blocks, which goes in front of the code that comes after it. Each call takes time and memory
//! linear in what it writes and in the texts that it copies, and stack that grows with the depth of the tree; it fails only
//! without memory.

ghost use Rattle.std.specs.Prelude.{◌≡◌, ◌≤◌, ◌+◌, ◌∷◌, ◌++◌, OnOk, map, length, take, drop};
ghost use Rattle.std.specs.Option.{option_map};
ghost use Rattle.nb_machine.specs.Code.{expr_code, stmt_code, arm_code, block_code, other_code, arms_code, while_code, for_code, in_order};

use crate::compile_expr::compile_expr;
use crate::draft::Draft;
use crate::instr::{Instr, Word};
use nb_syntax::{Arm, Block, Expr, Stmt};
use nb_value::{Items, Text};
use std::alloc::{AllocError, Global};

/// Puts the code of a block in front.
#[cycle(compile_statements)]
pub(crate) fn compile_block(
    block: &Block,
    code: &mut Draft,
    alloc: Global,
) -> Result<(), AllocError>
    ensures { OnOk result (code.new ≡ block_code block.now ++ code.old) }
{
    code.push_front(Instr::Leave)?;
    let stmts = block.stmts.as_slice();
    for i in (0..stmts.len()).rev() {
        compile_stmt(&stmts[i], code, alloc)?;
    }
    code.push_front(Instr::Enter)
}

#[cycle(compile_statements)]
fn compile_stmt(stmt: &Stmt, code: &mut Draft, alloc: Global) -> Result<(), AllocError>
    ensures { OnOk result (code.new ≡ stmt_code stmt.now ++ code.old) }
{
    match stmt {
        Stmt::Let(name, e) => compile_last(e, code, alloc, Instr::Let(name.copy(alloc)?))?,
        Stmt::Assign(name, e) => compile_last(e, code, alloc, Instr::Assign(name.copy(alloc)?))?,
        Stmt::If(arms, other) => {
            let end = code.len();
            compile_other(other, code, alloc)?;
            let others = code.len() - end;
            compile_arms(arms, code, alloc, others)?
        }
        Stmt::While(test, body) => compile_while(body, code, alloc, test)?,
        Stmt::For(name, e, body) => {
            compile_for(body, code, alloc, name)?;
            compile_last(e, code, alloc, Instr::Turns)?
        }
        Stmt::Yield(e) => compile_last(e, code, alloc, Instr::Yield)?,
        Stmt::Return(e) => compile_last(e, code, alloc, Instr::Return)?,
        Stmt::Throw(e) => compile_last(e, code, alloc, Instr::Throw)?,
        Stmt::Cleanup(e) => compile_last(e, code, alloc, Instr::Cleanup)?,
    }
    code.push_front(Instr::Tick)
}

// An expression, and the instruction that takes its value.
fn compile_last(e: &Expr, code: &mut Draft, alloc: Global, last: Instr) -> Result<(), AllocError>
    ensures { OnOk result (code.new ≡ expr_code e.now ++ last ∷ code.old) }
{
    code.push_front(last)?;
    compile_expr(e, code, alloc)
}

// The block of the last `else`.
#[cycle(compile_statements)]
fn compile_other(other: &Option<Block>, code: &mut Draft, alloc: Global) -> Result<(), AllocError>
    ensures { OnOk result (code.new ≡ other_code (option_map block_code other.now) ++ code.old) }
{
    match other {
        None => Ok(()),
        Some(block) => compile_block(block, code, alloc),
    }
}

// The arms of an `if`, in front of the block of its last `else`, which has so many instructions. Each arm ends with a jump
// past the arms and the block after it.
#[cycle(compile_statements)]
fn compile_arms(
    arms: &Items<Arm>,
    code: &mut Draft,
    alloc: Global,
    others: usize,
) -> Result<(), AllocError>
    requires { others ≤ length code.old }
    ensures { OnOk result (code.new ≡ arms_code (map arm_code arms.now) (take others code.old) ++ drop others code.old) }
{
    let end = code.len() - others;
    let arms = arms.as_slice();
    for i in (0..arms.len()).rev() {
        let passed = code.len() - end;
        compile_arm(&arms[i], code, alloc, passed)?;
    }
    Ok(())
}

// An arm, which ends with a jump past so many instructions.
#[cycle(compile_statements)]
fn compile_arm(arm: &Arm, code: &mut Draft, alloc: Global, others: usize) -> Result<(), AllocError>
    ensures { OnOk result (code.new ≡ (arm_code arm.now).0 ++ (Instr.Unless Word.If (length (arm_code arm.now).1 + 1) ∷ ((arm_code arm.now).1 ++ Instr.Go others ∷ code.old))) }
{
    let end = code.len();
    code.push_front(Instr::Go(others))?;
    compile_block(&arm.body, code, alloc)?;
    let passed = code.len() - end;
    code.push_front(Instr::Unless(Word::If, passed))?;
    compile_expr(&arm.test, code, alloc)
}

// How long the jump back to the test is, is known once the test stands in front.
#[cycle(compile_statements)]
fn compile_while(
    body: &Block,
    code: &mut Draft,
    alloc: Global,
    test: &Expr,
) -> Result<(), AllocError>
    ensures { OnOk result (code.new ≡ while_code (expr_code test.now) (block_code body.now) ++ code.old) }
{
    let end = code.len();
    code.push_front(Instr::Back(0))?;
    compile_block(body, code, alloc)?;
    let passed = code.len() - end;
    code.push_front(Instr::Unless(Word::While, passed))?;
    compile_expr(test, code, alloc)?;
    let back = code.len() - end - 1;
    code.set_before(end, Instr::Back(back));
    Ok(())
}

// The turns of a `for`, after its list.
#[cycle(compile_statements)]
fn compile_for(body: &Block, code: &mut Draft, alloc: Global, name: &Text) -> Result<(), AllocError>
    ensures { OnOk result (code.new ≡ for_code name.now (block_code body.now) ++ code.old) }
{
    let end = code.len();
    code.push_front(Instr::Back(0))?;
    code.push_front(Instr::Leave)?;
    compile_block(body, code, alloc)?;
    code.push_front(Instr::Take(name.copy(alloc)?))?;
    code.push_front(Instr::Tick)?;
    let passed = code.len() - end;
    code.push_front(Instr::Next(passed))?;
    code.set_before(end, Instr::Back(passed));
    Ok(())
}
