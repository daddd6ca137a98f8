//! What the tests start from.
ghost use Rattle.nb_runs.specs.Footings.{IsMarked};

use nb_runs::Started;
use nb_value::{Items, Numbers, Value};
use nb_wave::Footing;
use std::alloc::{AllocError, Global};

// What a variable rests on whose body came with the first entry, and that needs nothing.
fn footing(alloc: Global) -> Footing
    ensures { IsMarked result }
{
    Footing {
        place: 1,
        mark: 0,
        inputs: Numbers::from_vec(Vec::new(alloc)),
        starts: Numbers::from_vec(Vec::new(alloc)),
        renewals: Numbers::from_vec(Vec::new(alloc)),
    }
}

/// A new start at a place.
pub(crate) fn started(alloc: Global, place: u64) -> Started {
    Started::new(alloc, place, footing(alloc))
}

/// The starts of variables 1 and 2, at the places 2 and 3.
pub(crate) fn two_starts(alloc: Global) -> Result<Vec<Option<Started>>, AllocError> {
    let mut list = Vec::new(alloc);
    list.push(Some(started(alloc, 2)))?;
    list.push(Some(started(alloc, 3)))?;
    Ok(list)
}

/// Cleanups: one number.
pub(crate) fn one_cleanup(alloc: Global, number: i64) -> Result<Items<Value>, AllocError> {
    let mut cleanups = Items::new(alloc);
    cleanups.push(Value::Int(number))?;
    Ok(cleanups)
}
