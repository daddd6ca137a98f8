//! The text of expressions, with brackets exactly where they are needed.

ghost use Rattle.std.specs.Prelude.{◌≡◌, ◌++◌, ◌==◌, OnOk, [], map, codes, if◌then◌else◌};
ghost use Rattle.nb_value.specs.Function.{function_name};
ghost use Rattle.nb_syntax.specs.Print.{bare, printed, placed, operand, operand_text, operands_text, parts_text, separated, member_text, path_step_text, steps_text, sign_text};

use crate::draft::Draft;
use crate::level::{AND, COMPARISON, EXPR, OR, POSTFIX, PRIMARY, PRODUCT, SUM, UNARY, level};
use crate::quoted::push_quoted;
use crate::tree::{Expr, Member, Operand, PathStep, Sign};
use nb_value::{Function, Items};
use std::alloc::AllocError;

/// Adds the expression's text, in brackets where its level is lower than the one asked for.
#[cycle(print)]
pub(crate) fn push_expr(out: &mut Draft, expr: &Expr, asked: u8) -> Result<(), AllocError>
    ensures { OnOk result (out.new ≡ out.old ++ printed expr.now asked) }
{
    if level(expr) < asked {
        out.push("(")?;
        push_bare(out, expr)?;
        out.push(")")
    } else {
        push_bare(out, expr)
    }
}

#[cycle(print)]
fn push_bare(out: &mut Draft, expr: &Expr) -> Result<(), AllocError>
    ensures { OnOk result (out.new ≡ out.old ++ (bare expr.now).text) }
{
    match expr {
        Expr::Int(n) => out.push_int(*n),
        Expr::Quoted(text) => push_quoted(out, text.as_str()),
        Expr::Bool(b) => out.push(if *b { "true" } else { "false" }),
        Expr::Null => out.push("null"),
        Expr::Name(name) => out.push(name.as_str()),
        Expr::List(items) => push_enclosed(out, "[", items, "]"),
        Expr::Rec(members) => push_record(out, members),
        Expr::Call(function, args) => push_call(out, *function, args),
        Expr::Fetch(key) => push_within(out, "fetch(", key.get(), ")"),
        Expr::Path(root, steps) => {
            push_expr(out, root.get(), PRIMARY)?;
            push_steps(out, steps)
        }
        Expr::Unary(sign, part) => push_after(out, sign_text(*sign), part.get(), POSTFIX),
        Expr::Product(first, more) => {
            push_expr(out, first.get(), UNARY)?;
            push_operands(out, more, UNARY)
        }
        Expr::Sum(first, more) => {
            push_expr(out, first.get(), PRODUCT)?;
            push_operands(out, more, PRODUCT)
        }
        Expr::Compare(sign, left, right) => {
            push_expr(out, left.get(), SUM)?;
            push_operand(out, *sign, right.get(), SUM)
        }
        Expr::And(parts) => push_parts(out, parts, " && ", COMPARISON),
        Expr::Or(parts) => push_parts(out, parts, " || ", AND),
        Expr::Choose(test, yes, no) => {
            push_expr(out, test.get(), OR)?;
            push_after(out, " ? ", yes.get(), OR)?;
            push_after(out, " : ", no.get(), OR)
        }
    }
}

#[cycle(print)]
fn push_enclosed(
    out: &mut Draft,
    before: &str,
    parts: &Items<Expr>,
    after: &str,
) -> Result<(), AllocError>
    ensures { OnOk result (out.new ≡ out.old ++ before.now ++ parts_text (codes ", ") 0 (map bare parts.now) ++ after.now) }
{
    out.push(before)?;
    push_parts(out, parts, ", ", EXPR)?;
    out.push(after)
}

#[cycle(print)]
fn push_call(out: &mut Draft, function: Function, args: &Items<Expr>) -> Result<(), AllocError>
    ensures { OnOk result (out.new ≡ out.old ++ function_name function ++ codes "(" ++ parts_text (codes ", ") 0 (map bare args.now) ++ codes ")") }
{
    out.push(function.name())?;
    push_enclosed(out, "(", args, ")")
}

#[cycle(print)]
fn push_parts(
    out: &mut Draft,
    parts: &Items<Expr>,
    separator: &str,
    asked: u8,
) -> Result<(), AllocError>
    ensures { OnOk result (out.new ≡ out.old ++ parts_text separator.now asked (map bare parts.now)) }
{
    for (place, part) in parts.as_slice().iter().enumerate() {
        push_between(out, place, separator)?;
        push_expr(out, part, asked)?;
    }
    Ok(())
}

// The first of a row has no separator before it.
pub(crate) fn push_between(out: &mut Draft, place: usize, separator: &str) -> Result<(), AllocError>
    ensures { OnOk result (out.new ≡ out.old ++ (if place == 0 then [] else separator.now)) }
{
    if place == 0 {
        Ok(())
    } else {
        out.push(separator)
    }
}

#[cycle(print)]
fn push_record(out: &mut Draft, members: &Items<Member>) -> Result<(), AllocError>
    ensures { OnOk result (out.new ≡ out.old ++ codes "{" ++ separated (codes ", ") (map member_text members.now) ++ codes "}") }
{
    out.push("{")?;
    for (place, member) in members.as_slice().iter().enumerate() {
        push_between(out, place, ", ")?;
        push_quoted(out, member.key.as_str())?;
        out.push(": ")?;
        push_expr(out, &member.value, EXPR)?;
    }
    out.push("}")
}

// An expression at the lowest level, between two texts.
#[cycle(print)]
pub(crate) fn push_within(
    out: &mut Draft,
    before: &str,
    expr: &Expr,
    after: &str,
) -> Result<(), AllocError>
    ensures { OnOk result (out.new ≡ out.old ++ before.now ++ printed expr.now 0 ++ after.now) }
{
    push_after(out, before, expr, EXPR)?;
    out.push(after)
}

#[cycle(print)]
fn push_after(out: &mut Draft, before: &str, expr: &Expr, asked: u8) -> Result<(), AllocError>
    ensures { OnOk result (out.new ≡ out.old ++ before.now ++ printed expr.now asked) }
{
    out.push(before)?;
    push_expr(out, expr, asked)
}

#[cycle(print)]
fn push_steps(out: &mut Draft, steps: &Items<PathStep>) -> Result<(), AllocError>
    ensures { OnOk result (out.new ≡ out.old ++ steps_text (map path_step_text steps.now)) }
{
    for step in steps.as_slice() {
        push_step(out, step)?;
    }
    Ok(())
}

#[cycle(print)]
fn push_step(out: &mut Draft, step: &PathStep) -> Result<(), AllocError>
    ensures { OnOk result (out.new ≡ out.old ++ path_step_text step.now) }
{
    match step {
        PathStep::Field(name) => {
            out.push(".")?;
            out.push(name.as_str())
        }
        PathStep::At(index) => push_within(out, "[", index, "]"),
    }
}

#[cycle(print)]
fn push_operands(out: &mut Draft, operands: &Items<Operand>, asked: u8) -> Result<(), AllocError>
    ensures { OnOk result (out.new ≡ out.old ++ operands_text asked (map operand operands.now)) }
{
    for operand in operands.as_slice() {
        push_operand(out, operand.sign, &operand.expr, asked)?;
    }
    Ok(())
}

#[cycle(print)]
fn push_operand(out: &mut Draft, sign: Sign, part: &Expr, asked: u8) -> Result<(), AllocError>
    ensures { OnOk result (out.new ≡ out.old ++ operand_text asked (sign, bare part.now)) }
{
    out.push(" ")?;
    out.push(sign_text(sign))?;
    out.push(" ")?;
    push_expr(out, part, asked)
}

/// The characters of the sign.
pub(crate) fn sign_text(sign: Sign) -> &'static str
    ensures { result.now ≡ sign_text sign }
{
    match sign {
        Sign::Plus => "+",
        Sign::Minus => "-",
        Sign::Times => "*",
        Sign::Divide => "/",
        Sign::Remainder => "%",
        Sign::Equal => "==",
        Sign::NotEqual => "!=",
        Sign::Less => "<",
        Sign::LessOrEqual => "<=",
        Sign::Greater => ">",
        Sign::GreaterOrEqual => ">=",
        Sign::Not => "!",
    }
}
