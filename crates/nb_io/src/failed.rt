/// An object of the outside failed, and its count of faults has risen, or stands at the greatest `u64`.
#[derive(Clone, Copy, Debug, PartialEq, Eq)]
pub struct Failed;
