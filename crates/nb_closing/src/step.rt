use nb_wave::Footing;

/// What becomes of a variable when a log closes.
#[derive(Drop)]
pub enum Step {
    /// It leaves.
    Leaves(u32),
    /// It starts, and rests on this.
    Starts(u32, Footing),
}
