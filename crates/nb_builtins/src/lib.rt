//! The functions that cells may call.
#![tactic(auto)]

mod call;
mod errors;
mod extremes;
mod fail;
mod fuel;
mod join;
mod lengths;
mod numerals;
mod orders;
mod parts;
mod ranges;
mod records;
mod slices;
mod sums;
mod texts;

pub use call::apply;
pub use fail::ApplyFail;
