//! The trees of cells: copies, printed text, free names, which cells are generators and which are plain.
#![tactic(auto)]

mod copy;
mod copy_stmt;
mod draft;
mod free;
mod free_expr;
mod free_stmt;
mod generator;
mod length;
mod length_expr;
mod length_stmt;
mod level;
mod plain;
mod print_expr;
mod print_stmt;
mod printing;
mod quoted;
mod scope;
mod tree;

pub use free::{Names, free_names};
pub use generator::is_generator;
pub use length::printed_len;
pub use plain::is_plain;
pub use printing::print;
pub use tree::{Arm, Block, Body, Cell, Expr, Member, Operand, PathStep, Sign, Stmt};
