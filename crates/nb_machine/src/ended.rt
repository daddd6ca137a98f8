use nb_eval::{RunEnd, Segment};

/// How an evaluation ended: what its segment gives, and a copy of the segment where it can be taken up again.
#[derive(Drop)]
pub struct Ended {
    pub end: RunEnd,
    pub copy: Option<Segment>,
}
