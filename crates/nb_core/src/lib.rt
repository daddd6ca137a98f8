//! The machine of a notebook: it takes events and work that was done, and keeps the log.
#![tactic(auto)]

mod calls;
mod doing;
mod machine;
mod placed;
mod replayed;
mod replaying;

pub use calls::Core;
pub use placed::{Placed, Shown};
pub use replayed::Reading;
pub use replaying::reading;
