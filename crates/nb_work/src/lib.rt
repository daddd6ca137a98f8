//! What is to be done for a ready variable, and what the log has of it once it is done.
#![tactic(auto)]

mod inputs;
mod notice;
pub mod readiness;
mod work;

pub use notice::{Notice, entry_of, notice_of};
pub use work::work_of;
