//! The text of a cell.

ghost use Rattle.std.specs.Prelude.{◌≡◌, ◌++◌, OnOk, IfOk};
ghost use Rattle.nb_syntax.specs.Print.{body_text, name_text, cell_text};

use crate::draft::Draft;
use crate::level::EXPR;
use crate::print_expr::push_expr;
use crate::print_stmt::push_block;
use crate::tree::{Body, Cell};
use nb_value::Text;
use std::alloc::{AllocError, Global};

/// `name = body`, or the body alone, with brackets exactly where they are needed. It takes time and memory
/// linear in the text, and fails only without memory.
pub fn print(alloc: Global, cell: &Cell) -> Result<Text, AllocError>
    ensures { IfOk result (λ text. text ≡ cell_text cell.now) }
{
    let mut out = Draft::new(alloc);
    push_name(&mut out, &cell.name)?;
    push_body(&mut out, &cell.body)?;
    Ok(out.into_text())
}

fn push_name(out: &mut Draft, name: &Option<Text>) -> Result<(), AllocError>
    ensures { OnOk result (out.new ≡ out.old ++ name_text name.now) }
{
    match name {
        None => Ok(()),
        Some(name) => {
            out.push(name.as_str())?;
            out.push(" = ")
        }
    }
}

fn push_body(out: &mut Draft, body: &Body) -> Result<(), AllocError>
    ensures { OnOk result (out.new ≡ out.old ++ body_text body.now) }
{
    match body {
        Body::Expr(expr) => push_expr(out, expr, EXPR),
        Body::Block(block) => push_block(out, block),
    }
}
