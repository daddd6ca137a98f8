//! The length of a cell's text.

ghost use Rattle.std.specs.Prelude.{◌≡◌, ◌-◌, ◌^◌, length, min};
ghost use Rattle.nb_syntax.specs.Print.{name_text, body_text, cell_text};

use crate::length_expr::expr_len;
use crate::length_stmt::block_len;
use crate::level::EXPR;
use crate::tree::{Body, Cell};
use nb_value::Text;

/// The number of bytes of the cell's text, or the end of u64 where there are more. It takes no memory, and time
/// linear in the cell.
pub fn printed_len(cell: &Cell) -> u64
    ensures { result ≡ min (length (cell_text cell.now)) (2 ^ 64 - 1) }
{
    name_len(&cell.name).saturating_add(body_len(&cell.body))
}

fn name_len(name: &Option<Text>) -> u64
    ensures { result ≡ min (length (name_text name.now)) (2 ^ 64 - 1) }
{
    match name {
        None => 0,
        Some(name) => (name.len() as u64).saturating_add(3),
    }
}

fn body_len(body: &Body) -> u64
    ensures { result ≡ min (length (body_text body.now)) (2 ^ 64 - 1) }
{
    match body {
        Body::Expr(expr) => expr_len(expr, EXPR),
        Body::Block(block) => block_len(block),
    }
}
