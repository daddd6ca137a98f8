//! How many variables have a name.

/// The variables that have a name in a module: none, exactly this one, or two at least.
#[derive(Clone, Copy, PartialEq, Eq, Debug)]
pub enum Found {
    Nobody,
    One(u32),
    Many,
}
