/// What a call did with the loaders.
#[derive(Clone, Copy, Debug, PartialEq, Eq)]
pub enum LoadStep {
    /// One program was run, and its answer stands at this place of the log, counted from 1.
    Placed(u64),
    /// No program is to be run now, and none was.
    Nothing,
}
