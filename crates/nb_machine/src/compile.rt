//! The code of a cell.

ghost use Rattle.std.specs.Prelude.{◌≡◌, IfOk};
ghost use Rattle.nb_machine.specs.Code.{body_code};

use crate::compile_expr::compile_expr;
use crate::compile_stmt::compile_block;
use crate::draft::Draft;
use crate::instr::Instr;
use nb_syntax::Body;
use nb_value::{Items, Value};
use std::alloc::{AllocError, Global};

/// The code of a cell's body, in time and memory linear in the code and the texts in it, with stack that grows with the depth
/// of the tree. It fails only without memory.
pub fn compile(alloc: Global, body: &Body) -> Result<Items<Instr>, AllocError>
    ensures { IfOk result (λ code. code ≡ body_code body.now) }
{
    let mut code = Draft::new(alloc);
    code.push_front(Instr::Return)?;
    match body {
        Body::Expr(e) => compile_expr(e, &mut code, alloc)?,
        Body::Block(block) => {
            code.push_front(Instr::Const(Value::Null))?;
            compile_block(block, &mut code, alloc)?
        }
    }
    Ok(code.into_items())
}
