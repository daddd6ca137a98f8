//! Which variables leave and start again, and in which order, over numbers: nothing here knows of sheets or of values.
#![tactic(auto)]

mod closing;
mod due;
mod footing;
mod quick;
mod row;
mod step;
mod steps;
mod table;
mod users;
mod wave;

pub use footing::Footing;
pub use row::Row;
pub use step::Step;
pub use wave::Wave;
