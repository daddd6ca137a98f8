//! The meaning of a notebook's log: the rules by which its entries may come, and the laws on them.
//!
//! The definitions stand in `specs/`, one module a subject, and the lemmas in `proofs/`; there is no code to run.
#![tactic(auto)]

mod law;

pub use law::{
    law_of_cleanups, law_of_history, law_of_loaders, law_of_parked, law_of_pieces, law_of_pulling,
    law_of_quiet, law_of_rests, law_of_serial, law_of_starts, law_of_work,
};
