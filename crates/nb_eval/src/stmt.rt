//! Statements. Each call takes time in proportion to what it charges and to the bytes of the names that it looks up, up to a
//! logarithm, and stack that grows with the depth of the tree.

ghost use Rattle.std.specs.Prelude.{◌≡◌, ◌≢◌, map, OnOk};
ghost use Rattle.std.specs.Option.{option_map};
ghost use Rattle.nb_eval.specs.Run.{Meets, HasRoom, Spends, SpendsAtMost};
ghost use Rattle.nb_eval.specs.Evaluation.{eval, choose, ran, loop, each, in_order, act, arm, act_block};

use crate::effects::{cleaned, thrown, yielded};
use crate::expr::eval_expr;
use crate::given::Segment;
use crate::names::{assign, keep, keep_at};
use crate::state::State;
use crate::steps::{as_items, as_truth, charge_statement, charge_turn};
use crate::stop::Stop;
use nb_syntax::{Arm, Block, Expr, Stmt};
use nb_value::{Items, Text, Value};
use std::alloc::Global;

#[cycle(exec)]
fn exec_stmt(stmt: &Stmt, alloc: Global, given: &Segment, state: &mut State) -> Result<(), Stop>
    requires { HasRoom given.now state.old }
    ensures gives { Meets result state.new (act given.now stmt.now state.old) }
    ensures spends { OnOk result (Spends given.now state.old state.new) }
{
    charge_statement(alloc, given, state)?;
    match stmt {
        Stmt::Let(name, e) => {
            let value = eval_expr(e, alloc, given, state)?;
            keep(alloc, state, name, value)
        }
        Stmt::Assign(name, e) => {
            let value = eval_expr(e, alloc, given, state)?;
            assign(alloc, state, name, value)
        }
        Stmt::If(arms, other) => {
            let ran = exec_arms(arms, alloc, given, state)?;
            match other {
                Some(block) if !ran => exec_block(block, alloc, given, state),
                _ => Ok(()),
            }
        }
        Stmt::While(test, body) => exec_while(body, alloc, given, state, test),
        Stmt::For(name, e, body) => {
            let items = as_items(alloc, eval_expr(e, alloc, given, state)?, "for")?;
            exec_for(body, alloc, given, state, name, &items)
        }
        Stmt::Yield(e) => {
            let value = eval_expr(e, alloc, given, state)?;
            yielded(alloc, given, state, value)
        }
        Stmt::Return(e) => Err(Stop::Done(eval_expr(e, alloc, given, state)?)),
        Stmt::Throw(e) => thrown(alloc, &eval_expr(e, alloc, given, state)?),
        Stmt::Cleanup(e) => {
            let value = eval_expr(e, alloc, given, state)?;
            cleaned(alloc, state, value)
        }
    }
}

// Whether an arm ran: the first whose test is true.
#[cycle(exec)]
fn exec_arms(
    arms: &Items<Arm>,
    alloc: Global,
    given: &Segment,
    state: &mut State,
) -> Result<bool, Stop>
    requires { HasRoom given.now state.old }
    ensures gives { Meets result state.new (ran (map (arm given.now) arms.now) state.old) }
    ensures spends { OnOk result (SpendsAtMost given.now state.old state.new) }
{
    for arm in arms.as_slice() {
        let test = eval_expr(&arm.test, alloc, given, state)?;
        if as_truth(alloc, &test, "if")? {
            exec_block(&arm.body, alloc, given, state)?;
            return Ok(true);
        }
    }
    Ok(false)
}

#[cycle(exec)]
fn exec_while(
    body: &Block,
    alloc: Global,
    given: &Segment,
    state: &mut State,
    test: &Expr,
) -> Result<(), Stop>
    requires { HasRoom given.now state.old }
    ensures gives { Meets result state.new (loop given.now (eval given.now test.now) (act_block given.now body.now) state.old) }
    ensures spends { OnOk result (SpendsAtMost given.now state.old state.new) }
{
    'turns: loop {
        let value = eval_expr(test, alloc, given, state)?;
        if !as_truth(alloc, &value, "while")? {
            return Ok(());
        }
        exec_block(body, alloc, given, state)?;
    }
}

// A turn for each item, which is copied into the local of the loop. That local stands from the first turn to the end of
// the loop, so that a turn takes no look-up and no copy of the name.
#[cycle(exec)]
fn exec_for(
    body: &Block,
    alloc: Global,
    given: &Segment,
    state: &mut State,
    name: &Text,
    items: &Items<Value>,
) -> Result<(), Stop>
    requires { HasRoom given.now state.old }
    ensures gives { Meets result state.new (each name.now (act_block given.now body.now) items.now state.old) }
    ensures spends { OnOk result (SpendsAtMost given.now state.old state.new) }
{
    let len = state.locals.len();
    for item in items.as_slice() {
        charge_turn(alloc, given, state, len)?;
        keep_at(alloc, state, len, name, item.copy(alloc)?)?;
        exec_block(body, alloc, given, state)?;
    }
    state.locals.truncate(len);
    Ok(())
}

/// A block, at whose end its locals end.
#[cycle(exec)]
pub fn exec_block(
    block: &Block,
    alloc: Global,
    given: &Segment,
    state: &mut State,
) -> Result<(), Stop>
    requires { HasRoom given.now state.old }
    ensures gives { Meets result state.new (act_block given.now block.now state.old) }
    ensures spends { OnOk result (SpendsAtMost given.now state.old state.new) }
{
    let len = state.locals.len();
    exec_stmts(&block.stmts, alloc, given, state)?;
    state.locals.truncate(len);
    Ok(())
}

#[cycle(exec)]
fn exec_stmts(
    stmts: &Items<Stmt>,
    alloc: Global,
    given: &Segment,
    state: &mut State,
) -> Result<(), Stop>
    requires { HasRoom given.now state.old }
    ensures gives { Meets result state.new (in_order (map (act given.now) stmts.now) state.old) }
    ensures spends { OnOk result (SpendsAtMost given.now state.old state.new) }
{
    for stmt in stmts.as_slice() {
        exec_stmt(stmt, alloc, given, state)?;
    }
    Ok(())
}
