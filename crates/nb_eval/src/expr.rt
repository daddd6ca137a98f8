//! Expressions. Each call takes time in proportion to what it charges and to the bytes of the names that it looks up, up to a
//! logarithm, and stack that grows with the depth of the tree.

ghost use Rattle.std.specs.Prelude.{◌≡◌, ◌≢◌, [], map, OnOk};
ghost use Rattle.nb_eval.specs.Run.{Meets, HasRoom, Spends, SpendsAtMost};
ghost use Rattle.nb_eval.specs.Operate.{sum_step, product_step};
ghost use Rattle.nb_eval.specs.Evaluation.{eval, member, path_part, operand, parts, members, path_from, chain_from, all_true, some_true, quoted, name_value_of, list_of, record_of, call_of, fetch, unary, comparison, test_of, chosen_value};

use crate::call::call;
use crate::effects::ask;
use crate::given::Segment;
use crate::members::Members;
use crate::names::read;
use crate::operate::{compared, product_step, signed, sum_step};
use crate::path::{field_of, part_of};
use crate::state::State;
use crate::steps::{as_truth, charged, within_depth};
use crate::stop::Stop;
use nb_syntax::{Expr, Member, Operand, PathStep, Sign};
use nb_value::{Boxed, Function, Items, Pairs, Text, Value};
use std::alloc::Global;

/// The value of an expression.
#[cycle(eval)]
pub fn eval_expr(e: &Expr, alloc: Global, given: &Segment, state: &mut State) -> Result<Value, Stop>
    requires { HasRoom given.now state.old }
    ensures gives { Meets result state.new (eval given.now e.now state.old) }
    ensures spends { OnOk result (Spends given.now state.old state.new) }
{
    match e {
        Expr::Int(n) => charged(alloc, given, state, Value::Int(*n)),
        Expr::Quoted(text) => quoted(alloc, given, state, text),
        Expr::Bool(b) => charged(alloc, given, state, Value::Bool(*b)),
        Expr::Null => charged(alloc, given, state, Value::Null),
        Expr::Name(name) => named(alloc, given, state, name),
        Expr::List(items) => eval_list(items, alloc, given, state),
        Expr::Rec(members) => eval_record(members, alloc, given, state),
        Expr::Call(function, args) => eval_call(args, alloc, given, state, *function),
        Expr::Fetch(key) => eval_fetch(key, alloc, given, state),
        Expr::Path(root, steps) => {
            let root = eval_expr(root.get(), alloc, given, state)?;
            eval_path(steps, alloc, given, state, root)
        }
        Expr::Unary(sign, part) => eval_unary(part, alloc, given, state, *sign),
        Expr::Product(first, more) => {
            let first = eval_expr(first.get(), alloc, given, state)?;
            eval_product(more, alloc, given, state, first)
        }
        Expr::Sum(first, more) => {
            let first = eval_expr(first.get(), alloc, given, state)?;
            eval_sum(more, alloc, given, state, first)
        }
        Expr::Compare(sign, left, right) => {
            let left = eval_expr(left.get(), alloc, given, state)?;
            eval_comparison(right, alloc, given, state, *sign, left)
        }
        Expr::And(parts) => eval_and(parts, alloc, given, state),
        Expr::Or(parts) => eval_or(parts, alloc, given, state),
        Expr::Choose(test, yes, no) => {
            let test = eval_test(test, alloc, given, state)?;
            eval_choice(if test { yes } else { no }, alloc, given, state)
        }
    }
}

// The values of parts, from left to right.
#[cycle(eval)]
fn eval_parts(
    exprs: &Items<Expr>,
    alloc: Global,
    given: &Segment,
    state: &mut State,
) -> Result<Items<Value>, Stop>
    requires { HasRoom given.now state.old }
    ensures gives { Meets result state.new (parts [] (map (eval given.now) exprs.now) state.old) }
    ensures spends { OnOk result (SpendsAtMost given.now state.old state.new) }
{
    let mut values = Items::new(alloc);
    for e in exprs.as_slice() {
        let value = eval_expr(e, alloc, given, state)?;
        values.push(value)?;
    }
    Ok(values)
}

// The fields of keys with their values, from left to right.
#[cycle(eval)]
fn eval_members(
    list: &Items<Member>,
    alloc: Global,
    given: &Segment,
    state: &mut State,
) -> Result<Pairs<Value>, Stop>
    requires { HasRoom given.now state.old }
    ensures gives { Meets result state.new (members [] (map (member given.now) list.now) state.old) }
    ensures spends { OnOk result (SpendsAtMost given.now state.old state.new) }
{
    let mut fields = Members::new(alloc);
    for part in list.as_slice() {
        let value = eval_expr(&part.value, alloc, given, state)?;
        fields.put(alloc, &part.key, value)?;
    }
    Ok(fields.into_pairs(alloc)?)
}

#[cycle(eval)]
fn eval_list(
    exprs: &Items<Expr>,
    alloc: Global,
    given: &Segment,
    state: &mut State,
) -> Result<Value, Stop>
    requires { HasRoom given.now state.old }
    ensures gives { Meets result state.new (list_of (map (eval given.now) exprs.now) state.old) }
    ensures spends { OnOk result (Spends given.now state.old state.new) }
{
    let values = eval_parts(exprs, alloc, given, state)?;
    let value = within_depth(alloc, Value::List(values))?;
    charged(alloc, given, state, value)
}

#[cycle(eval)]
fn eval_record(
    list: &Items<Member>,
    alloc: Global,
    given: &Segment,
    state: &mut State,
) -> Result<Value, Stop>
    requires { HasRoom given.now state.old }
    ensures gives { Meets result state.new (record_of (map (member given.now) list.now) state.old) }
    ensures spends { OnOk result (Spends given.now state.old state.new) }
{
    let fields = eval_members(list, alloc, given, state)?;
    let value = within_depth(alloc, Value::Rec(fields))?;
    charged(alloc, given, state, value)
}

#[cycle(eval)]
fn eval_call(
    args: &Items<Expr>,
    alloc: Global,
    given: &Segment,
    state: &mut State,
    function: Function,
) -> Result<Value, Stop>
    requires { HasRoom given.now state.old }
    ensures gives { Meets result state.new (call_of function (map (eval given.now) args.now) state.old) }
    ensures spends { OnOk result (Spends given.now state.old state.new) }
{
    let args = eval_parts(args, alloc, given, state)?;
    call(alloc, given, state, function, &args)
}

// A comparison of a value with the part at its right.
#[cycle(eval)]
fn eval_comparison(
    right: &Boxed<Expr>,
    alloc: Global,
    given: &Segment,
    state: &mut State,
    sign: Sign,
    left: Value,
) -> Result<Value, Stop>
    requires { HasRoom given.now state.old }
    ensures gives { Meets result state.new (comparison sign left (eval given.now right.now) state.old) }
    ensures spends { OnOk result (Spends given.now state.old state.new) }
{
    let right = eval_expr(right.get(), alloc, given, state)?;
    let value = compared(alloc, sign, &left, &right)?;
    charged(alloc, given, state, value)
}

// The test of a choice.
#[cycle(eval)]
fn eval_test(
    test: &Boxed<Expr>,
    alloc: Global,
    given: &Segment,
    state: &mut State,
) -> Result<bool, Stop>
    requires { HasRoom given.now state.old }
    ensures gives { Meets result state.new (test_of (eval given.now test.now) state.old) }
    ensures spends { OnOk result (Spends given.now state.old state.new) }
{
    let test = eval_expr(test.get(), alloc, given, state)?;
    as_truth(alloc, &test, "?")
}

// The part that a test chose, as the value of the choice.
#[cycle(eval)]
fn eval_choice(
    chosen: &Boxed<Expr>,
    alloc: Global,
    given: &Segment,
    state: &mut State,
) -> Result<Value, Stop>
    requires { HasRoom given.now state.old }
    ensures gives { Meets result state.new (chosen_value (eval given.now chosen.now) state.old) }
    ensures spends { OnOk result (Spends given.now state.old state.new) }
{
    let value = eval_expr(chosen.get(), alloc, given, state)?;
    charged(alloc, given, state, value)
}

#[cycle(eval)]
fn eval_fetch(
    key: &Boxed<Expr>,
    alloc: Global,
    given: &Segment,
    state: &mut State,
) -> Result<Value, Stop>
    requires { HasRoom given.now state.old }
    ensures gives { Meets result state.new (fetch given.now (eval given.now key.now) state.old) }
    ensures spends { OnOk result (Spends given.now state.old state.new) }
{
    let key = eval_expr(key.get(), alloc, given, state)?;
    let value = ask(alloc, given, state, key)?;
    charged(alloc, given, state, value)
}

#[cycle(eval)]
fn eval_unary(
    part: &Boxed<Expr>,
    alloc: Global,
    given: &Segment,
    state: &mut State,
    sign: Sign,
) -> Result<Value, Stop>
    requires { HasRoom given.now state.old }
    ensures gives { Meets result state.new (unary sign (eval given.now part.now) state.old) }
    ensures spends { OnOk result (Spends given.now state.old state.new) }
{
    let part = eval_expr(part.get(), alloc, given, state)?;
    let value = signed(alloc, sign, &part)?;
    charged(alloc, given, state, value)
}

// The value after each step, from left to right.
#[cycle(eval)]
fn eval_path(
    steps: &Items<PathStep>,
    alloc: Global,
    given: &Segment,
    state: &mut State,
    root: Value,
) -> Result<Value, Stop>
    requires { HasRoom given.now state.old }
    ensures gives { Meets result state.new (path_from root (map (path_part given.now) steps.now) state.old) }
    ensures spends { OnOk result (SpendsAtMost given.now state.old state.new) }
{
    let mut value = root;
    for step in steps.as_slice() {
        value = eval_step(step, alloc, given, state, value)?;
    }
    Ok(value)
}

// The value after a step, with its charge.
#[cycle(eval)]
fn eval_step(
    step: &PathStep,
    alloc: Global,
    given: &Segment,
    state: &mut State,
    value: Value,
) -> Result<Value, Stop>
    requires { HasRoom given.now state.old }
    ensures gives { Meets result state.new (path_part given.now step.now value state.old) }
    ensures spends { OnOk result (Spends given.now state.old state.new) }
{
    match step {
        PathStep::Field(name) => {
            let field = field_of(alloc, &value, name)?;
            charged(alloc, given, state, field)
        }
        PathStep::At(index) => {
            let index = eval_expr(index, alloc, given, state)?;
            let part = part_of(alloc, &value, &index)?;
            charged(alloc, given, state, part)
        }
    }
}

#[cycle(eval)]
fn eval_sum(
    operands: &Items<Operand>,
    alloc: Global,
    given: &Segment,
    state: &mut State,
    first: Value,
) -> Result<Value, Stop>
    requires { HasRoom given.now state.old }
    ensures gives { Meets result state.new (chain_from sum_step first (map (operand given.now) operands.now) state.old) }
    ensures spends { OnOk result (SpendsAtMost given.now state.old state.new) }
{
    let mut value = first;
    for operand in operands.as_slice() {
        let right = eval_expr(&operand.expr, alloc, given, state)?;
        value = sum_step(alloc, given, state, operand.sign, value, right)?;
    }
    Ok(value)
}

#[cycle(eval)]
fn eval_product(
    operands: &Items<Operand>,
    alloc: Global,
    given: &Segment,
    state: &mut State,
    first: Value,
) -> Result<Value, Stop>
    requires { HasRoom given.now state.old }
    ensures gives { Meets result state.new (chain_from product_step first (map (operand given.now) operands.now) state.old) }
    ensures spends { OnOk result (SpendsAtMost given.now state.old state.new) }
{
    let mut value = first;
    for operand in operands.as_slice() {
        let right = eval_expr(&operand.expr, alloc, given, state)?;
        value = product_step(alloc, given, state, operand.sign, value, right)?;
    }
    Ok(value)
}

// Whether all parts are true; what stands after the part that decides isn't evaluated.
#[cycle(eval)]
fn eval_and(
    exprs: &Items<Expr>,
    alloc: Global,
    given: &Segment,
    state: &mut State,
) -> Result<Value, Stop>
    requires { HasRoom given.now state.old }
    ensures gives { Meets result state.new (all_true (map (eval given.now) exprs.now) state.old) }
    ensures spends { OnOk result (Spends given.now state.old state.new) }
{
    for e in exprs.as_slice() {
        let value = eval_expr(e, alloc, given, state)?;
        if !as_truth(alloc, &value, "&&")? {
            return charged(alloc, given, state, Value::Bool(false));
        }
    }
    charged(alloc, given, state, Value::Bool(true))
}

// Whether a part is true; what stands after the part that decides isn't evaluated.
#[cycle(eval)]
fn eval_or(
    exprs: &Items<Expr>,
    alloc: Global,
    given: &Segment,
    state: &mut State,
) -> Result<Value, Stop>
    requires { HasRoom given.now state.old }
    ensures gives { Meets result state.new (some_true (map (eval given.now) exprs.now) state.old) }
    ensures spends { OnOk result (Spends given.now state.old state.new) }
{
    for e in exprs.as_slice() {
        let value = eval_expr(e, alloc, given, state)?;
        if as_truth(alloc, &value, "||")? {
            return charged(alloc, given, state, Value::Bool(true));
        }
    }
    charged(alloc, given, state, Value::Bool(false))
}

// A copy of a quoted text.
fn quoted(alloc: Global, given: &Segment, state: &mut State, text: &Text) -> Result<Value, Stop>
    requires { HasRoom given.now state.old }
    ensures gives { Meets result state.new (quoted text.now state.old) }
    ensures spends { OnOk result (Spends given.now state.old state.new) }
{
    let text = text.copy(alloc)?;
    charged(alloc, given, state, Value::Text(text))
}

// A copy of the value of a name.
fn named(alloc: Global, given: &Segment, state: &mut State, name: &Text) -> Result<Value, Stop>
    requires { HasRoom given.now state.old }
    ensures gives { Meets result state.new (name_value_of given.now name.now state.old) }
    ensures spends { OnOk result (Spends given.now state.old state.new) }
{
    let value = read(alloc, given, state, name)?;
    charged(alloc, given, state, value)
}
