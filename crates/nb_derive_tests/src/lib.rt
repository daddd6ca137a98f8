//! Derived modules through the public calls of `nb_derive`, `nb_sheet` and `nb_resolve`. There is nothing here to run but
//! tests.
//!
//! They stand apart from what they test, since a crate that holds tests is proved once more with them.
#![tactic(auto)]

#[cfg(test)]
mod acts;
#[cfg(test)]
mod limits;
#[cfg(test)]
mod marks;
#[cfg(test)]
mod sheets;
