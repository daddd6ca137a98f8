//! The names and numbers of reasons and kinds of errors.

ghost use Rattle.std.specs.Prelude.{◌≡◌};
ghost use Rattle.nb_log.specs.Printing.{kind_name, refusal_name, refusal_number};
ghost use Rattle.nb_log.specs.Refused.{refusal_of};

use crate::entry::Refusal;
use nb_sheet::Refused;
use nb_value::ErrorKind;

/// The name of a kind of error.
pub fn kind_name(kind: ErrorKind) -> &'static str
    ensures { result.now ≡ kind_name kind }
{
    match kind {
        ErrorKind::NotDefined => "NotDefined",
        ErrorKind::DefinedTwice => "DefinedTwice",
        ErrorKind::Circular => "Circular",
        ErrorKind::WrongKind => "WrongKind",
        ErrorKind::Overflow => "Overflow",
        ErrorKind::ZeroDivisor => "ZeroDivisor",
        ErrorKind::OutOfRange => "OutOfRange",
        ErrorKind::NoField => "NoField",
        ErrorKind::Thrown => "Thrown",
        ErrorKind::FetchFailed => "FetchFailed",
        ErrorKind::OutOfFuel => "OutOfFuel",
        ErrorKind::TooLarge => "TooLarge",
        ErrorKind::TooManyFetches => "TooManyFetches",
        ErrorKind::Unassigned => "Unassigned",
    }
}

/// The name of a reason.
pub fn refusal_name(reason: Refusal) -> &'static str
    ensures { result.now ≡ refusal_name reason }
{
    match reason {
        Refusal::NoModule => "NoModule",
        Refusal::NoVariable => "NoVariable",
        Refusal::TooManyModules => "TooManyModules",
        Refusal::TooManyVariables => "TooManyVariables",
        Refusal::NotNamed => "NotNamed",
        Refusal::NamedTwice => "NamedTwice",
        Refusal::Disposed => "Disposed",
        Refusal::LogFull => "LogFull",
        Refusal::NoTicket => "NoTicket",
        Refusal::AlreadySettled => "AlreadySettled",
        Refusal::NoAsk => "NoAsk",
    }
}

/// The number of a reason.
pub fn refusal_number(reason: Refusal) -> u8
    ensures { result ≡ refusal_number reason }
{
    reason as u8
}

/// The reason for an edit that the sheet refuses.
pub fn refusal_of(refused: Refused) -> Refusal
    ensures { result ≡ refusal_of refused }
{
    match refused {
        Refused::NoModule => Refusal::NoModule,
        Refused::NoVariable => Refusal::NoVariable,
        Refused::TooManyModules => Refusal::TooManyModules,
        Refused::TooManyVariables => Refusal::TooManyVariables,
        Refused::NotNamed => Refusal::NotNamed,
        Refused::NamedTwice => Refusal::NamedTwice,
    }
}
