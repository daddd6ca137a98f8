//! The code of expressions, which goes in front of the code that comes after it. Each call takes time and memory linear in
//! what it writes and in the texts that it copies, and stack that grows with the depth of the tree; it fails only without
//! memory.

ghost use Rattle.std.specs.Prelude.{◌≡◌, ◌+◌, ◌∷◌, ◌++◌, OnOk, map, length, true, false};
ghost use Rattle.nb_value.specs.declared.value.Value.TheVariants as V;
ghost use Rattle.nb_machine.specs.Code.{expr_code, member_code, path_code, operand_code, elements, puts, operations, path, ands, ors};

use crate::draft::Draft;
use crate::instr::{Instr, Word};
use nb_syntax::{Expr, Member, Operand, PathStep};
use nb_value::{Items, Value};
use std::alloc::{AllocError, Global};

/// Puts the code of an expression in front.
#[cycle(compile)]
pub(crate) fn compile_expr(e: &Expr, code: &mut Draft, alloc: Global) -> Result<(), AllocError>
    ensures { OnOk result (code.new ≡ expr_code e.now ++ code.old) }
{
    match e {
        Expr::Int(n) => charged(code, Instr::Const(Value::Int(*n))),
        Expr::Quoted(text) => charged(code, Instr::Const(Value::Text(text.copy(alloc)?))),
        Expr::Bool(b) => charged(code, Instr::Const(Value::Bool(*b))),
        Expr::Null => charged(code, Instr::Const(Value::Null)),
        Expr::Name(name) => charged(code, Instr::Name(name.copy(alloc)?)),
        Expr::List(items) => compile_values(items, code, alloc, Instr::List),
        Expr::Rec(members) => compile_fields(members, code, alloc),
        Expr::Call(function, args) => compile_values(args, code, alloc, Instr::Call(*function)),
        Expr::Fetch(key) => compile_charged(key.get(), code, alloc, Instr::Fetch),
        Expr::Path(root, steps) => {
            compile_path(steps, code, alloc)?;
            compile_expr(root.get(), code, alloc)
        }
        Expr::Unary(sign, part) => compile_charged(part.get(), code, alloc, Instr::Unary(*sign)),
        Expr::Product(first, more) => {
            compile_products(more, code, alloc)?;
            compile_expr(first.get(), code, alloc)
        }
        Expr::Sum(first, more) => {
            compile_sums(more, code, alloc)?;
            compile_expr(first.get(), code, alloc)
        }
        Expr::Compare(sign, left, right) => {
            compile_charged(right.get(), code, alloc, Instr::Compare(*sign))?;
            compile_expr(left.get(), code, alloc)
        }
        Expr::And(parts) => compile_and(parts, code, alloc),
        Expr::Or(parts) => compile_or(parts, code, alloc),
        Expr::Choose(test, yes, no) => {
            compile_no(no.get(), code, alloc)?;
            compile_yes(yes.get(), code, alloc)?;
            compile_expr(test.get(), code, alloc)
        }
    }
}

// An instruction that gives a value, and the value's charge.
fn charged(code: &mut Draft, instr: Instr) -> Result<(), AllocError>
    ensures { OnOk result (code.new ≡ instr ∷ Instr.Charge ∷ code.old) }
{
    code.push_front(Instr::Charge)?;
    code.push_front(instr)
}

// An expression, and an instruction that takes its value and gives another, with the charge of that one.
#[cycle(compile)]
fn compile_charged(
    e: &Expr,
    code: &mut Draft,
    alloc: Global,
    instr: Instr,
) -> Result<(), AllocError>
    ensures { OnOk result (code.new ≡ expr_code e.now ++ instr ∷ Instr.Charge ∷ code.old) }
{
    charged(code, instr)?;
    compile_expr(e, code, alloc)
}

// The values of a list or a call, and what is made of them.
#[cycle(compile)]
fn compile_values(
    exprs: &Items<Expr>,
    code: &mut Draft,
    alloc: Global,
    made: Instr,
) -> Result<(), AllocError>
    ensures { OnOk result (code.new ≡ Instr.Values ∷ (elements (map expr_code exprs.now) ++ made ∷ Instr.Charge ∷ code.old)) }
{
    charged(code, made)?;
    let exprs = exprs.as_slice();
    for i in (0..exprs.len()).rev() {
        code.push_front(Instr::Append)?;
        compile_expr(&exprs[i], code, alloc)?;
    }
    code.push_front(Instr::Values)
}

#[cycle(compile)]
fn compile_fields(
    members: &Items<Member>,
    code: &mut Draft,
    alloc: Global,
) -> Result<(), AllocError>
    ensures { OnOk result (code.new ≡ Instr.Fields ∷ (puts (map member_code members.now) ++ Instr.Record ∷ Instr.Charge ∷ code.old)) }
{
    charged(code, Instr::Record)?;
    let members = members.as_slice();
    for i in (0..members.len()).rev() {
        let member = &members[i];
        code.push_front(Instr::Put(member.key.copy(alloc)?))?;
        compile_expr(&member.value, code, alloc)?;
    }
    code.push_front(Instr::Fields)
}

#[cycle(compile)]
fn compile_path(steps: &Items<PathStep>, code: &mut Draft, alloc: Global) -> Result<(), AllocError>
    ensures { OnOk result (code.new ≡ path (map path_code steps.now) ++ code.old) }
{
    let steps = steps.as_slice();
    for i in (0..steps.len()).rev() {
        compile_step(&steps[i], code, alloc)?;
    }
    Ok(())
}

#[cycle(compile)]
fn compile_step(step: &PathStep, code: &mut Draft, alloc: Global) -> Result<(), AllocError>
    ensures { OnOk result (code.new ≡ path_code step.now ++ code.old) }
{
    match step {
        PathStep::Field(name) => charged(code, Instr::Field(name.copy(alloc)?)),
        PathStep::At(index) => compile_charged(index, code, alloc, Instr::At),
    }
}

#[cycle(compile)]
fn compile_products(
    operands: &Items<Operand>,
    code: &mut Draft,
    alloc: Global,
) -> Result<(), AllocError>
    ensures { OnOk result (code.new ≡ operations Instr.Product (map operand_code operands.now) ++ code.old) }
{
    let operands = operands.as_slice();
    for i in (0..operands.len()).rev() {
        let operand = &operands[i];
        compile_charged(&operand.expr, code, alloc, Instr::Product(operand.sign))?;
    }
    Ok(())
}

#[cycle(compile)]
fn compile_sums(
    operands: &Items<Operand>,
    code: &mut Draft,
    alloc: Global,
) -> Result<(), AllocError>
    ensures { OnOk result (code.new ≡ operations Instr.Sum (map operand_code operands.now) ++ code.old) }
{
    let operands = operands.as_slice();
    for i in (0..operands.len()).rev() {
        let operand = &operands[i];
        compile_charged(&operand.expr, code, alloc, Instr::Sum(operand.sign))?;
    }
    Ok(())
}

// Where a part is false, it jumps past what the whole is where all are true.
#[cycle(compile)]
fn compile_and(parts: &Items<Expr>, code: &mut Draft, alloc: Global) -> Result<(), AllocError>
    ensures { OnOk result (code.new ≡ ands (map expr_code parts.now) ++ Instr.Const (V.Bool true) ∷ Instr.Go 1 ∷ Instr.Const (V.Bool false) ∷ Instr.Charge ∷ code.old) }
{
    charged(code, Instr::Const(Value::Bool(false)))?;
    let end = code.len();
    code.push_front(Instr::Go(1))?;
    code.push_front(Instr::Const(Value::Bool(true)))?;
    let parts = parts.as_slice();
    for i in (0..parts.len()).rev() {
        let passed = code.len() - end;
        code.push_front(Instr::Unless(Word::And, passed))?;
        compile_expr(&parts[i], code, alloc)?;
    }
    Ok(())
}

// Where a part is true, it jumps past what the whole is where all are false.
#[cycle(compile)]
fn compile_or(parts: &Items<Expr>, code: &mut Draft, alloc: Global) -> Result<(), AllocError>
    ensures { OnOk result (code.new ≡ ors (map expr_code parts.now) ++ Instr.Const (V.Bool false) ∷ Instr.Go 1 ∷ Instr.Const (V.Bool true) ∷ Instr.Charge ∷ code.old) }
{
    charged(code, Instr::Const(Value::Bool(true)))?;
    let end = code.len();
    code.push_front(Instr::Go(1))?;
    code.push_front(Instr::Const(Value::Bool(false)))?;
    let parts = parts.as_slice();
    for i in (0..parts.len()).rev() {
        let passed = code.len() - end;
        code.push_front(Instr::When(Word::Or, passed))?;
        compile_expr(&parts[i], code, alloc)?;
    }
    Ok(())
}

// The end of a choice: its value where the test is false, which a jump passes, and the charge.
#[cycle(compile)]
fn compile_no(no: &Expr, code: &mut Draft, alloc: Global) -> Result<(), AllocError>
    ensures { OnOk result (code.new ≡ Instr.Go (length (expr_code no.now)) ∷ (expr_code no.now ++ Instr.Charge ∷ code.old)) }
{
    code.push_front(Instr::Charge)?;
    let end = code.len();
    compile_expr(no, code, alloc)?;
    let passed = code.len() - end;
    code.push_front(Instr::Go(passed))
}

// The value of a choice where its test is true. The test jumps past it and past the jump that ends it.
#[cycle(compile)]
fn compile_yes(yes: &Expr, code: &mut Draft, alloc: Global) -> Result<(), AllocError>
    ensures { OnOk result (code.new ≡ Instr.Unless Word.Choice (length (expr_code yes.now) + 1) ∷ (expr_code yes.now ++ code.old)) }
{
    let end = code.len();
    compile_expr(yes, code, alloc)?;
    let passed = code.len() - end + 1;
    code.push_front(Instr::Unless(Word::Choice, passed))
}
