//! The nodes of expressions. What stands alone leaves no node.

ghost use Rattle.std.specs.Prelude.{◌≡◌, IfOk};
ghost use Rattle.nb_syntax.specs.declared.tree.Expr.TheVariants as tree;
ghost use Rattle.nb_grammar.specs.Reading.{path_of, product_of, sum_of, and_of, or_of};

use crate::keep::both;
use nb_syntax::{Expr, Operand, PathStep, Sign};
use nb_value::{Boxed, Items};
use std::alloc::{AllocError, Global};

/// What the steps lead to from a root.
pub fn path_of(alloc: Global, root: Expr, steps: Items<PathStep>) -> Result<Expr, AllocError>
    ensures { IfOk result (λ e. e ≡ path_of root steps) }
{
    if steps.is_empty() {
        return Ok(root);
    }
    Ok(Expr::Path(Boxed::new(alloc, root)?, steps))
}

/// The product of a part and what stands behind it.
pub fn product_of(alloc: Global, first: Expr, more: Items<Operand>) -> Result<Expr, AllocError>
    ensures { IfOk result (λ e. e ≡ product_of first more) }
{
    if more.is_empty() {
        return Ok(first);
    }
    Ok(Expr::Product(Boxed::new(alloc, first)?, more))
}

/// The sum of a part and what stands behind it.
pub fn sum_of(alloc: Global, first: Expr, more: Items<Operand>) -> Result<Expr, AllocError>
    ensures { IfOk result (λ e. e ≡ sum_of first more) }
{
    if more.is_empty() {
        return Ok(first);
    }
    Ok(Expr::Sum(Boxed::new(alloc, first)?, more))
}

/// A part, and parts behind it that also have to be true.
pub fn and_of(alloc: Global, first: Expr, more: Items<Expr>) -> Result<Expr, AllocError>
    ensures { IfOk result (λ e. e ≡ and_of first more) }
{
    if more.is_empty() {
        return Ok(first);
    }
    let mut parts = Items::new(alloc);
    parts.push(first)?;
    parts.append(more)?;
    Ok(Expr::And(parts))
}

/// A part, and parts behind it of which one has to be true.
pub fn or_of(alloc: Global, first: Expr, more: Items<Expr>) -> Result<Expr, AllocError>
    ensures { IfOk result (λ e. e ≡ or_of first more) }
{
    if more.is_empty() {
        return Ok(first);
    }
    let mut parts = Items::new(alloc);
    parts.push(first)?;
    parts.append(more)?;
    Ok(Expr::Or(parts))
}

/// A sign and the part behind it.
pub fn unary_of(alloc: Global, sign: Sign, part: Expr) -> Result<Expr, AllocError>
    ensures { IfOk result (λ e. e ≡ tree.Unary sign part) }
{
    Ok(Expr::Unary(sign, Boxed::new(alloc, part)?))
}

/// A comparison of two parts.
pub fn compare_of(alloc: Global, sign: Sign, left: Expr, right: Expr) -> Result<Expr, AllocError>
    ensures { IfOk result (λ e. e ≡ tree.Compare sign left right) }
{
    let (right, left) = both(right, Boxed::new(alloc, left))?;
    Ok(Expr::Compare(sign, left, Boxed::new(alloc, right)?))
}

/// What is fetched under a key.
pub fn fetch_of(alloc: Global, key: Expr) -> Result<Expr, AllocError>
    ensures { IfOk result (λ e. e ≡ tree.Fetch key) }
{
    Ok(Expr::Fetch(Boxed::new(alloc, key)?))
}
