//! What closes after an entry, worked out before anything changes.
#![tactic(auto)]

mod closer;
mod inputs;
mod names;
mod planning;
mod quiet;
mod resting;
mod site;
mod step;
mod telling;
mod ties;
mod touching;

pub use closer::Closer;
pub use resting::footing;
pub use site::{Moment, Site, sites};
pub use step::Step;
pub use ties::{Ties, tie};
