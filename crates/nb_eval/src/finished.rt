use crate::given::{RunEnd, Segment};

/// An evaluation that ended: its result is what its segment gives.
#[derive(Debug, Drop)]
pub struct Finished {
    segment: Segment,
    result: RunEnd,
    pub ghost is_run: { result ≡ segment_end segment } by { Coded-set result-code result (segment_end segment) },
}

ghost use Rattle.std.specs.Prelude.{◌≡◌};
ghost use Rattle.std.specs.Coded.{Coded-set};
ghost use Rattle.nb_eval.specs.Evaluation.{segment_end};

impl Finished {
    /// The segment with what it gives. It takes no memory.
    pub fn of(segment: Segment, end: RunEnd) -> Finished
        requires { end ≡ segment_end segment }
        ensures segment { result.segment ≡ segment }
        ensures end { result.result ≡ end }
    {
        Finished {
            segment,
            result: end,
        }
    }

    /// What was evaluated.
    pub fn segment(&self) -> &Segment
        ensures { result.now ≡ self.now.segment }
    {
        &self.segment
    }

    /// What it gave.
    pub fn result(&self) -> &RunEnd
        ensures same { result.now ≡ self.now.result }
        ensures is_run { result.now ≡ segment_end self.now.segment }
    {
        &self.result
    }

    /// What it gave, without its segment.
    pub fn into_result(self) -> RunEnd
        ensures same { result ≡ self.result }
        ensures is_run { result ≡ segment_end self.segment }
    {
        let Finished { segment, result } = self;
        let _segment = segment;
        result
    }
}
