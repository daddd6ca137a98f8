//! A machine.

ghost use Rattle.std.specs.Prelude.{◌≡◌, Some};
ghost use Rattle.std.specs.Coded.{Coded-set, Π_prop, coded_option};
ghost use Rattle.nb_eval.specs.contracts.given.RunEnd as end_row;
ghost use Rattle.nb_eval.specs.contracts.given.Segment as segment_row;
ghost use Rattle.nb_eval.specs.Evaluation.{charges as charges_of, segment_end};
ghost use Rattle.nb_machine.specs.declared.ended.Ended.{Ended};
ghost use Rattle.nb_machine.specs.Segments.{can_go_on, copy_where};

use crate::ended::Ended;
use crate::standing::Standing;

/// An evaluation that is made charge by charge.
#[derive(Drop)]
pub struct Machine {
    pub(crate) standing: Standing,
    pub(crate) ended: Option<Ended>,
    ghost gives: { (x : Ended) → ended ≡ Some x → x.end ≡ segment_end standing.segment } by { Π_prop {0, 0} (λ x. Π_prop {0, 0} (λ e. Coded-set end_row.the_row.coded x.end (segment_end standing.segment))) },
    ghost whole: { (x : Ended) → ended ≡ Some x → standing.charges ≡ charges_of standing.segment },
    ghost kept: { (x : Ended) → ended ≡ Some x → x.copy ≡ copy_where (can_go_on x.end.ending) standing.segment } by { Π_prop {0, 0} (λ x. Π_prop {0, 0} (λ e. Coded-set (coded_option segment_row.the_row.coded) x.copy (copy_where (can_go_on x.end.ending) standing.segment))) },
}
