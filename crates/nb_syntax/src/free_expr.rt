//! The free names of expressions.

ghost use Rattle.std.specs.Prelude.{◌≡◌, [], ◌∷◌, OnOk, map};
ghost use Rattle.nb_syntax.specs.FreeNames.{has_name, without, first_occurrences, occurrences, step_occurrences, member_occurrences, operand_occurrences, joined};

use crate::free::Names;
use crate::scope::Scope;
use crate::tree::{Expr, Member, Operand, PathStep};
use nb_value::{Items, Text};
use std::alloc::{AllocError, Global};

/// Adds the names that occur in the expression, that aren't in scope and that weren't found before.
#[cycle(find)]
pub(crate) fn find_expr(
    expr: &Expr,
    alloc: Global,
    scope: &Scope,
    names: &mut Names,
) -> Result<(), AllocError>
    ensures { OnOk result (names.new ≡ first_occurrences names.old (without scope.now (occurrences expr.now))) }
{
    match expr {
        Expr::Int(_) | Expr::Quoted(_) | Expr::Bool(_) | Expr::Null => Ok(()),
        Expr::Name(name) => note(name, alloc, scope, names),
        Expr::List(parts) | Expr::And(parts) | Expr::Or(parts) => {
            find_exprs(parts, alloc, scope, names)
        }
        Expr::Rec(members) => find_members(members, alloc, scope, names),
        Expr::Call(_, args) => find_exprs(args, alloc, scope, names),
        Expr::Fetch(key) => find_expr(key.get(), alloc, scope, names),
        Expr::Path(root, steps) => {
            find_expr(root.get(), alloc, scope, names)?;
            find_steps(steps, alloc, scope, names)
        }
        Expr::Unary(_, part) => find_expr(part.get(), alloc, scope, names),
        Expr::Product(first, more) | Expr::Sum(first, more) => {
            find_expr(first.get(), alloc, scope, names)?;
            find_operands(more, alloc, scope, names)
        }
        Expr::Compare(_, left, right) => {
            find_expr(left.get(), alloc, scope, names)?;
            find_expr(right.get(), alloc, scope, names)
        }
        Expr::Choose(test, yes, no) => {
            find_expr(test.get(), alloc, scope, names)?;
            find_expr(yes.get(), alloc, scope, names)?;
            find_expr(no.get(), alloc, scope, names)
        }
    }
}

#[cycle(find)]
fn find_exprs(
    exprs: &Items<Expr>,
    alloc: Global,
    scope: &Scope,
    names: &mut Names,
) -> Result<(), AllocError>
    ensures { OnOk result (names.new ≡ first_occurrences names.old (without scope.now (joined (map occurrences exprs.now)))) }
{
    for expr in exprs.as_slice() {
        find_expr(expr, alloc, scope, names)?;
    }
    Ok(())
}

#[cycle(find)]
fn find_members(
    members: &Items<Member>,
    alloc: Global,
    scope: &Scope,
    names: &mut Names,
) -> Result<(), AllocError>
    ensures { OnOk result (names.new ≡ first_occurrences names.old (without scope.now (joined (map member_occurrences members.now)))) }
{
    for member in members.as_slice() {
        find_expr(&member.value, alloc, scope, names)?;
    }
    Ok(())
}

#[cycle(find)]
fn find_steps(
    steps: &Items<PathStep>,
    alloc: Global,
    scope: &Scope,
    names: &mut Names,
) -> Result<(), AllocError>
    ensures { OnOk result (names.new ≡ first_occurrences names.old (without scope.now (joined (map step_occurrences steps.now)))) }
{
    for step in steps.as_slice() {
        find_step(step, alloc, scope, names)?;
    }
    Ok(())
}

#[cycle(find)]
fn find_step(
    step: &PathStep,
    alloc: Global,
    scope: &Scope,
    names: &mut Names,
) -> Result<(), AllocError>
    ensures { OnOk result (names.new ≡ first_occurrences names.old (without scope.now (step_occurrences step.now))) }
{
    match step {
        PathStep::Field(_) => Ok(()),
        PathStep::At(index) => find_expr(index, alloc, scope, names),
    }
}

#[cycle(find)]
fn find_operands(
    operands: &Items<Operand>,
    alloc: Global,
    scope: &Scope,
    names: &mut Names,
) -> Result<(), AllocError>
    ensures { OnOk result (names.new ≡ first_occurrences names.old (without scope.now (joined (map operand_occurrences operands.now)))) }
{
    for operand in operands.as_slice() {
        find_expr(&operand.expr, alloc, scope, names)?;
    }
    Ok(())
}

fn note(name: &Text, alloc: Global, scope: &Scope, names: &mut Names) -> Result<(), AllocError>
    ensures { OnOk result (names.new ≡ first_occurrences names.old (without scope.now (name.now ∷ []))) }
{
    if scope.has(name) || has_name(name, names.as_slice()) {
        return Ok(());
    }
    names.push(name.copy(alloc)?)
}

fn has_name(name: &Text, names: &[Text]) -> bool
    ensures { result ≡ has_name name.now names.now }
{
    for known in names {
        if known.as_str() == name.as_str() {
            return true;
        }
    }
    false
}
