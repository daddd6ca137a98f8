//! Operators, on the values of their parts.

ghost use Rattle.std.specs.Prelude.{◌≡◌, ◌≢◌, ◌++◌, IfOk, OnOk};
ghost use Rattle.nb_value.specs.declared.value.Value.{out-Value};
ghost use Rattle.nb_eval.specs.Run.{Meets, Gives, HasRoom, Spends};
ghost use Rattle.nb_syntax.specs.Print.{sign_text};
ghost use Rattle.nb_eval.specs.Operate.{wrong_kind, add, summed, multiplied, int_or, ordered, compared, signed, sum_step, product_step};

use crate::given::Segment;
use crate::state::State;
use crate::steps::{charged, failure};
use crate::stop::Stop;
use nb_syntax::Sign;
use nb_value::{ErrorKind, Text, Value};
use std::alloc::{AllocError, Global};
use std::cmp::Ordering;

fn sign_text(sign: Sign) -> &'static str
    ensures { result.now ≡ sign_text sign }
{
    match sign {
        Sign::Plus => "+",
        Sign::Minus => "-",
        Sign::Times => "*",
        Sign::Divide => "/",
        Sign::Remainder => "%",
        Sign::Equal => "==",
        Sign::NotEqual => "!=",
        Sign::Less => "<",
        Sign::LessOrEqual => "<=",
        Sign::Greater => ">",
        Sign::GreaterOrEqual => ">=",
        Sign::Not => "!",
    }
}

fn wrong_kind(alloc: Global, sign: Sign) -> Result<Value, Stop>
    ensures { Gives result (wrong_kind sign) }
{
    Err(failure(alloc, ErrorKind::WrongKind, sign_text(sign)))
}

// A number, or the overflow where there is none.
fn int_or(alloc: Global, sign: Sign, number: Option<i64>) -> Result<Value, Stop>
    ensures { Gives result (int_or sign number) }
{
    match number {
        Some(n) => Ok(Value::Int(n)),
        None => Err(failure(alloc, ErrorKind::Overflow, sign_text(sign))),
    }
}

fn joined_texts(alloc: Global, a: &Text, b: &Text) -> Result<Text, AllocError>
    ensures { IfOk result (λ text. text ≡ a.now ++ b.now) }
{
    let mut string = String::from_str(alloc, a.as_str())?;
    string.push_str(b.as_str())?;
    Ok(Text::from_string(string))
}

fn add(alloc: Global, left: Value, right: Value) -> Result<Value, Stop>
    ensures { Gives result (add (out-Value left) (out-Value right)) }
{
    match (left, right) {
        (Value::Int(a), Value::Int(b)) => int_or(alloc, Sign::Plus, a.checked_add(b)),
        (Value::Text(a), Value::Text(b)) => Ok(Value::Text(joined_texts(alloc, &a, &b)?)),
        (Value::List(mut a), Value::List(b)) => {
            a.append(b)?;
            Ok(Value::List(a))
        }
        _ => wrong_kind(alloc, Sign::Plus),
    }
}

fn subtract(alloc: Global, left: &Value, right: &Value) -> Result<Value, Stop>
    ensures { Gives result (summed Sign.Minus left.now right.now) }
{
    match (left, right) {
        (Value::Int(a), Value::Int(b)) => int_or(alloc, Sign::Minus, a.checked_sub(*b)),
        _ => wrong_kind(alloc, Sign::Minus),
    }
}

fn multiply(alloc: Global, left: &Value, right: &Value) -> Result<Value, Stop>
    ensures { Gives result (multiplied Sign.Times left.now right.now) }
{
    match (left, right) {
        (Value::Int(a), Value::Int(b)) => int_or(alloc, Sign::Times, a.checked_mul(*b)),
        _ => wrong_kind(alloc, Sign::Times),
    }
}

fn divide(alloc: Global, left: &Value, right: &Value) -> Result<Value, Stop>
    ensures { Gives result (multiplied Sign.Divide left.now right.now) }
{
    match (left, right) {
        (Value::Int(_), Value::Int(0)) => Err(failure(alloc, ErrorKind::ZeroDivisor, "/")),
        (Value::Int(a), Value::Int(b)) => int_or(alloc, Sign::Divide, a.checked_div(*b)),
        _ => wrong_kind(alloc, Sign::Divide),
    }
}

fn remainder(alloc: Global, left: &Value, right: &Value) -> Result<Value, Stop>
    ensures { Gives result (multiplied Sign.Remainder left.now right.now) }
{
    match (left, right) {
        (Value::Int(_), Value::Int(0)) => Err(failure(alloc, ErrorKind::ZeroDivisor, "%")),
        (Value::Int(a), Value::Int(b)) => int_or(alloc, Sign::Remainder, a.checked_rem(*b)),
        _ => wrong_kind(alloc, Sign::Remainder),
    }
}

/// What an operator of sums gives. Lists are moved into their join; texts are copied into theirs, in time linear in it.
pub fn summed(alloc: Global, sign: Sign, left: Value, right: Value) -> Result<Value, Stop>
    ensures { Gives result (summed sign left right) }
{
    match sign {
        Sign::Plus => add(alloc, left, right),
        Sign::Minus => subtract(alloc, &left, &right),
        _ => wrong_kind(alloc, sign),
    }
}

/// What an operator of products gives.
pub fn multiplied(alloc: Global, sign: Sign, left: &Value, right: &Value) -> Result<Value, Stop>
    ensures { Gives result (multiplied sign left.now right.now) }
{
    match sign {
        Sign::Times => multiply(alloc, left, right),
        Sign::Divide => divide(alloc, left, right),
        Sign::Remainder => remainder(alloc, left, right),
        _ => wrong_kind(alloc, sign),
    }
}

/// An applied operator of a sum, with its charge.
pub fn sum_step(
    alloc: Global,
    given: &Segment,
    state: &mut State,
    sign: Sign,
    left: Value,
    right: Value,
) -> Result<Value, Stop>
    requires { HasRoom given.now state.old }
    ensures gives { Meets result state.new (sum_step sign left right state.old) }
    ensures memory { result ≡ Err Stop.Memory → state.new ≡ state.old }
    ensures spends { OnOk result (Spends given.now state.old state.new) }
{
    let value = summed(alloc, sign, left, right)?;
    charged(alloc, given, state, value)
}

/// An applied operator of a product, with its charge.
pub fn product_step(
    alloc: Global,
    given: &Segment,
    state: &mut State,
    sign: Sign,
    left: Value,
    right: Value,
) -> Result<Value, Stop>
    requires { HasRoom given.now state.old }
    ensures gives { Meets result state.new (product_step sign left right state.old) }
    ensures memory { result ≡ Err Stop.Memory → state.new ≡ state.old }
    ensures spends { OnOk result (Spends given.now state.old state.new) }
{
    let value = multiplied(alloc, sign, &left, &right)?;
    charged(alloc, given, state, value)
}

// Whether an order holds, of two numbers or two texts.
fn ordered(
    alloc: Global,
    sign: Sign,
    holds: bool,
    left: &Value,
    right: &Value,
) -> Result<Value, Stop>
    ensures { Gives result (ordered sign holds left.now right.now) }
{
    match (left, right) {
        (Value::Int(_), Value::Int(_)) => Ok(Value::Bool(holds)),
        (Value::Text(_), Value::Text(_)) => Ok(Value::Bool(holds)),
        _ => wrong_kind(alloc, sign),
    }
}

/// What a comparison gives, in time linear in the smaller value. It takes no memory but for an error.
pub fn compared(alloc: Global, sign: Sign, left: &Value, right: &Value) -> Result<Value, Stop>
    ensures { Gives result (compared sign left.now right.now) }
{
    let order = left.compare(right);
    match sign {
        Sign::Equal => Ok(Value::Bool(order == Ordering::Equal)),
        Sign::NotEqual => Ok(Value::Bool(order != Ordering::Equal)),
        Sign::Less => ordered(alloc, sign, order == Ordering::Less, left, right),
        Sign::LessOrEqual => ordered(alloc, sign, order != Ordering::Greater, left, right),
        Sign::Greater => ordered(alloc, sign, order == Ordering::Greater, left, right),
        Sign::GreaterOrEqual => ordered(alloc, sign, order != Ordering::Less, left, right),
        _ => wrong_kind(alloc, sign),
    }
}

fn negate(alloc: Global, value: &Value) -> Result<Value, Stop>
    ensures { Gives result (signed Sign.Minus value.now) }
{
    match value {
        Value::Int(n) => int_or(alloc, Sign::Minus, n.checked_neg()),
        _ => wrong_kind(alloc, Sign::Minus),
    }
}

fn invert(alloc: Global, value: &Value) -> Result<Value, Stop>
    ensures { Gives result (signed Sign.Not value.now) }
{
    match value {
        Value::Bool(b) => Ok(Value::Bool(!*b)),
        _ => wrong_kind(alloc, Sign::Not),
    }
}

/// What an operator of one part gives.
pub fn signed(alloc: Global, sign: Sign, value: &Value) -> Result<Value, Stop>
    ensures { Gives result (signed sign value.now) }
{
    match sign {
        Sign::Minus => negate(alloc, value),
        Sign::Not => invert(alloc, value),
        _ => wrong_kind(alloc, sign),
    }
}
