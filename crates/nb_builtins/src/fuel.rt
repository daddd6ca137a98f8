ghost use Rattle.std.specs.Prelude.{◌↔◌, ◌+◌, ◌≤◌, IsTrue};
ghost use Rattle.nb_builtins.specs.Calls.{Answers};
ghost use Rattle.nb_builtins.specs.Apply.{afforded};

use crate::errors::out_of_fuel;
use crate::fail::ApplyFail;
use nb_value::Value;
use std::alloc::Global;

/// The value, if the fuel pays for it: for its size and 1 more.
pub fn afforded(alloc: Global, value: Value, fuel: u64) -> Result<Value, ApplyFail>
    ensures { Answers result (afforded fuel value) }
{
    if value.size() >= fuel {
        return Err(out_of_fuel(alloc));
    }
    Ok(value)
}

/// Whether the fuel pays for a list or a text of so many parts of size 1, before it is made.
pub fn is_paid(parts: u64, fuel: u64) -> bool
    ensures { IsTrue result ↔ (parts + 2 ≤ fuel) }
{
    fuel >= 2 && parts <= fuel - 2
}
