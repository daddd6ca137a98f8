//! Laws of the log, with nothing to run.

ghost use Rattle.nb_history.specs.Starts.{StartsOnce, RunsAreShort, SomeMayStart, ClosesSoon, StartsOnceBetween, SerialPullsNothing};
ghost use Rattle.nb_history.specs.Batches.{PullingIsReady, RestHoldsNothing, DueNeedsNothingHeld, DueWhereBehind};
ghost use Rattle.nb_history.specs.Cleanups.{CleansUpOnce};
ghost use Rattle.nb_history.specs.Ends.{PullsNeverGrow, PullsAskFew, AnswersStartNothing, AllUseUp, BetweenLinesEnds, VariablesEndSoon, BatchEndsSoon, WorkEnds, LoadsEnd, SerialEnds, SerialEndsAlone, SerialIsLegal, SerialIsOne, SerialRests, SerialIsFirst, EditedIsThere, SerialIsHistory, HistoryIsThere, HistoryIsThereAlone, AnswerIsOne, AnswersAreIn, HistoryIsOne, ReachedIsLegal, ReachedIsFront, PiecesArePrinting, FrontIsWrittenFirst};
ghost use Rattle.nb_history.specs.Parked.{ReadyKeepsInputs, AskGoesOn, ValueGoesOn};
ghost use Rattle.nb_history.specs.Headline.{RestsHold};
ghost use Rattle.nb_history.specs.Quiet.{OthersStayQuiet, FirstPullsStayQuiet, PullsAreFew};

/// A law, with nothing to run: in a run of entries that are all `left` or `pending` each variable has at most one
/// `pending`, and the run has at most as many entries as there are variables. While anything is due, something may start.
/// Between an external entry before which nothing is pulling and the next one each variable has at most one `pending`. In
/// a serial history nothing is pulling before any external entry.
pub fn law_of_starts()
    ensures once { StartsOnce }
    ensures short { RunsAreShort }
    ensures some_start { SomeMayStart }
    ensures closes { ClosesSoon }
    ensures between { StartsOnceBetween }
    ensures serial { SerialPullsNothing }
{}

/// A law, with nothing to run: what is pulling is ready. At each rest nothing is held, and no wanted variable is behind.
/// What is due needs nothing that is held, so what it needs is behind exactly where it is due.
pub fn law_of_pulling()
    ensures ready { PullingIsReady }
    ensures rest { RestHoldsNothing }
    ensures free { DueNeedsNothingHeld }
    ensures behind { DueWhereBehind }
{}

/// A law, with nothing to run: each cleanup that a start records is disposed of once, or owed.
pub fn law_of_cleanups()
    ensures { CleansUpOnce }
{}

/// A law, with nothing to run: between two lines the pulls past the first that have no outcome yet never grow, a start
/// that asks has had fewer answers than 64 for each of its pulls, nothing starts at a loader's answer, and each entry of
/// a variable, and each answer of a loader, uses up some of the work.
pub fn law_of_work()
    ensures pulls { PullsNeverGrow }
    ensures few_asks { PullsAskFew }
    ensures answers { AnswersStartNothing }
    ensures all { AllUseUp }
    ensures between_lines { BetweenLinesEnds }
    ensures soon { VariablesEndSoon }
    ensures batch { BatchEndsSoon }
{}

/// A law, with nothing to run: the work after any legal log ends at rest, the serial history of any lines is there,
/// whatever the loaders answer, and each serial history is legal, is one, and rests.
pub fn law_of_serial()
    ensures work { WorkEnds }
    ensures loads { LoadsEnd }
    ensures ends { SerialEnds }
    ensures ends_alone { SerialEndsAlone }
    ensures legal { SerialIsLegal }
    ensures one { SerialIsOne }
    ensures rests { SerialRests }
    ensures first { SerialIsFirst }
    ensures edited { EditedIsThere }
{}

/// A law, with nothing to run: in every legal log, after each front that rests, every wanted variable shows what
/// evaluating the present definitions from scratch gives, and nothing exactly where that waits.
pub fn law_of_rests()
    ensures { RestsHold }
{}

/// A law, with nothing to run: a variable that was ready in its present start has the input values of then, while it isn't
/// behind. When it is ready next after it asked, it has one answer more; after it showed a value, one pull more.
pub fn law_of_parked()
    ensures inputs { ReadyKeepsInputs }
    ensures asked { AskGoesOn }
    ensures shown { ValueGoesOn }
{}

/// A law, with nothing to run: each serial history of editors' lines is a history of them, as it is promised, and it is
/// there, however the programs of loaders end. The lines, the loaders and the runs determine it.
pub fn law_of_history()
    ensures serial { SerialIsHistory }
    ensures there { HistoryIsThere }
    ensures alone { HistoryIsThereAlone }
    ensures one { HistoryIsOne }
{}

/// A law, with nothing to run: a run of a program has one answer, and the answers that a serial history uses are those in
/// its entries. What a call had reached that stopped is legal, and a front of the history in which those runs come first.
pub fn law_of_loaders()
    ensures answer { AnswerIsOne }
    ensures answers { AnswersAreIn }
    ensures legal { ReachedIsLegal }
    ensures front { ReachedIsFront }
{}

/// A law, with nothing to run: the lines of a printing, one after another, are the printing, and those of a log's first
/// entries come first.
pub fn law_of_pieces()
    ensures whole { PiecesArePrinting }
    ensures first { FrontIsWrittenFirst }
{}

/// A law, with nothing to run: where nothing is leaving or due, nothing is after a frame, an answer, a late one, a refusal
/// and a rest, nor after a notice of a variable at its first pull. Each start was pulled at most 4,000,001 times.
pub fn law_of_quiet()
    ensures others { OthersStayQuiet }
    ensures first { FirstPullsStayQuiet }
    ensures pulls { PullsAreFew }
{}
