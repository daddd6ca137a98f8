//! A law of states and starts, with nothing to run.

ghost use Rattle.nb_runs.specs.RunStates.{StartsNew, AnswersStart, PullsStart, ShowsOfStart, AsksOfStart, EndsStart, LeavesNone};

/// A law, with nothing to run: each change does to a variable's state what the entry does to its start.
pub fn law_of_states()
    ensures started { StartsNew }
    ensures answered { AnswersStart }
    ensures pulled { PullsStart }
    ensures shown { ShowsOfStart }
    ensures asked { AsksOfStart }
    ensures ended { EndsStart }
    ensures left { LeavesNone }
{}
