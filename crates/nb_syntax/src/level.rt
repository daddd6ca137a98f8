//! The levels of the grammar, from low to high, at which expressions stand and at which positions ask for them.

ghost use Rattle.std.specs.Prelude.{◌≡◌};
ghost use Rattle.nb_syntax.specs.Print.{bare};

use crate::tree::Expr;

pub(crate) const EXPR: u8 = 0;

pub(crate) const OR: u8 = 1;

pub(crate) const AND: u8 = 2;

pub(crate) const COMPARISON: u8 = 3;

pub(crate) const SUM: u8 = 4;

pub(crate) const PRODUCT: u8 = 5;

pub(crate) const UNARY: u8 = 6;

pub(crate) const POSTFIX: u8 = 7;

pub(crate) const PRIMARY: u8 = 8;

/// The level of the grammar's line that the expression stands on.
pub(crate) fn level(expr: &Expr) -> u8
    ensures { result ≡ (bare expr.now).level }
{
    match expr {
        Expr::Choose(_, _, _) => EXPR,
        Expr::Or(_) => OR,
        Expr::And(_) => AND,
        Expr::Compare(_, _, _) => COMPARISON,
        Expr::Sum(_, _) => SUM,
        Expr::Product(_, _) => PRODUCT,
        Expr::Unary(_, _) => UNARY,
        Expr::Path(_, _) => POSTFIX,
        _ => PRIMARY,
    }
}
