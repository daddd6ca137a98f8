//! Laws of evaluation, with nothing to run.

ghost use Rattle.nb_eval.specs.Laws.{AnswersExtend, PullsExtend, LoopsTurn, PlainCellsEnd};

/// A law, with nothing to run: answers added at the end only extend what an evaluation yields, cleans up and charges,
/// and they change an evaluation alone that needs an answer.
pub fn law_of_answers()
    ensures { AnswersExtend }
{}

/// A law, with nothing to run: a greater pull count only extends what an evaluation yields, cleans up and charges, and
/// it changes an evaluation alone that paused.
pub fn law_of_pulls()
    ensures { PullsExtend }
{}

/// A law, with nothing to run: a loop is one turn and then the loop again, so the bound on its turns is never felt.
pub fn law_of_loops()
    ensures { LoopsTurn }
{}

/// A law, with nothing to run: a plain cell ends with a value or an error, without yields and cleanups.
pub fn law_of_plain_cells()
    ensures { PlainCellsEnd }
{}
