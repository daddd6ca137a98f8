//! What threads over a book ask and are told: whether there is a newer number, and which moment it is.
#![tactic(auto)]

mod gate;
mod mem_poll;
mod poll;

pub use gate::{FreeGate, Gate, Moment};
pub use mem_poll::MemPoll;
pub use poll::Poll;
