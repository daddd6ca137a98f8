//! A board: for each variable the place of its last start or leaving, which one thread stores and others load without a lock.
#![tactic(auto)]

mod board;
mod rule;
mod watch;

pub use board::{Board, Reader, Writer};
pub use rule::Load;
pub use watch::Watch;
