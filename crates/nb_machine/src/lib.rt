//! The evaluation of a cell charge by charge, which can be suspended after any of them.
#![tactic(auto)]

mod compile;
mod compile_expr;
mod compile_stmt;
mod draft;
mod effects;
mod ended;
mod exec;
mod instr;
mod machine;
mod operators;
mod parked;
mod pile;
mod point;
mod stack;
mod standing;
mod statements;
mod step;
mod turn;
mod turns;
mod values;

pub use ended::Ended;
pub use instr::{Instr, Slot, Word};
pub use machine::Machine;
pub use parked::Parked;
pub use pile::Pile;
pub use point::{Held, Spot};
pub use standing::Standing;
pub use step::begin;
