/// A step of a wave.
#[derive(Clone, Copy, Debug, PartialEq, Eq)]
pub enum Step {
    /// A variable becomes idle.
    Left(u32),
    /// A variable gets a new start.
    Pending(u32),
}
