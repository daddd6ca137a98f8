//! The free names of a cell.

ghost use Rattle.std.specs.Prelude.{◌≡◌, IfOk, OnOk};
ghost use Rattle.nb_syntax.specs.FreeNames.{body_occurrences, first_occurrences, free};

use crate::free_expr::find_expr;
use crate::free_stmt::find_block;
use crate::scope::Scope;
use crate::tree::{Body, Cell};
use nb_value::{Items, Text};
use std::alloc::{AllocError, Global};

/// Distinct names, in order of first occurrence.
pub type Names = Items<Text>;

/// The free names of a cell, each once, in order of first occurrence: the names in expressions that stand outside
/// the scope of each `let` and `for` of that name. The target of an assignment is none of them. Each occurrence is
/// compared with the names in scope and with those found so far, so it takes time linear in the occurrences times
/// these names; its memory is that of the names found and one word for each name in scope. It fails only without
/// memory.
pub fn free_names(alloc: Global, cell: &Cell) -> Result<Names, AllocError>
    ensures { IfOk result (λ names. names ≡ free cell.now) }
{
    let mut names = Items::new(alloc);
    find_body(&cell.body, alloc, &mut names)?;
    Ok(names)
}

#[tactic(auto, using(crate::proofs::FreeLemmas::without_none))]
fn find_body(body: &Body, alloc: Global, names: &mut Names) -> Result<(), AllocError>
    ensures { OnOk result (names.new ≡ first_occurrences names.old (body_occurrences body.now)) }
{
    let mut scope = Scope::new(alloc);
    match body {
        Body::Expr(expr) => find_expr(expr, alloc, &scope, names),
        Body::Block(block) => find_block(block, alloc, &mut scope, names),
    }
}
