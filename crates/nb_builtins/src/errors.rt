ghost use Rattle.std.specs.Prelude.{[]};
ghost use Rattle.nb_value.specs.Function.{function_name};
ghost use Rattle.nb_builtins.specs.Calls.{Fails};

use crate::fail::ApplyFail;
use nb_value::{CellError, ErrorKind, Function, Text};
use std::alloc::Global;

fn failure(alloc: Global, kind: ErrorKind, detail: &str) -> ApplyFail
    ensures { Fails result kind detail.now }
{
    match Text::from_str(alloc, detail) {
        Ok(detail) => ApplyFail::Error(CellError {
            kind,
            detail,
            via: None,
        }),
        Err(_) => ApplyFail::Memory,
    }
}

/// An argument of a kind that the function doesn't take.
pub fn wrong_kind(alloc: Global, function: Function) -> ApplyFail
    ensures { Fails result ErrorKind.WrongKind (function_name function) }
{
    failure(alloc, ErrorKind::WrongKind, function.name())
}

/// A number or a text that the function doesn't take.
pub fn out_of_range(alloc: Global, function: Function) -> ApplyFail
    ensures { Fails result ErrorKind.OutOfRange (function_name function) }
{
    failure(alloc, ErrorKind::OutOfRange, function.name())
}

/// A whole number that does not fit 64 bits.
pub fn overflow(alloc: Global, function: Function) -> ApplyFail
    ensures { Fails result ErrorKind.Overflow (function_name function) }
{
    failure(alloc, ErrorKind::Overflow, function.name())
}

/// Less fuel than the value costs.
pub fn out_of_fuel(alloc: Global) -> ApplyFail
    ensures { Fails result ErrorKind.OutOfFuel [] }
{
    failure(alloc, ErrorKind::OutOfFuel, "")
}
